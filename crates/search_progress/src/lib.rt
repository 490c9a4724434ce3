// How far a search has come, for a program that tells it while it searches: how many placements have a figure so far and which is the largest, read
// off the figure table; and the line that says so, put whole at the front of a lent buffer, or refused for want of room.
#![tactic(auto)]

ghost use Rattle.std.specs.Prelude.{◌≡◌, List, ℕ, suc, ◌<◌, get_or};
ghost use Rattle.text.specs.Appending.{Appended};
ghost use Rattle.game_tables.specs.Tables.{no_figure};
ghost use Rattle.answer_lines.specs.Lines.{PutPost};
ghost use Rattle.search_progress.specs.Telling.{Tells, round_line};

use game_tables::NO_FIGURE;
use railway::Refusal;
use text::{LINE_END, TAB, append};

// How many placements have a figure, and the largest of these; 0 where none has one.
#[derive(Clone, Copy)]
pub struct Progress {
    pub count: u32,
    pub largest: u32,
}

// Room enough for the line of a round.
pub const LINE: usize = 40;

// Of the placements below a number of them, in a figure table; past its end none has a figure.
pub fn so_far(figures: &[u32], placements: u32) -> Progress
    ensures { Tells figures.now placements result }
{
    let mut a = Progress {
        count: 0,
        largest: 0,
    };
    for p in 0..placements {
        a = with_entry(a, game_tables::entry_at(figures, p, NO_FIGURE));
    }
    a
}

// With the entry of one placement more.
fn with_entry(a: Progress, entry: u32) -> Progress
    requires { a.count < 4294967295 }
    ensures { (figs : List ℕ) (n : ℕ) → entry ≡ get_or figs n no_figure → Tells figs n a → Tells figs (suc n) result }
{
    if entry == NO_FIGURE {
        return a;
    }
    Progress {
        count: a.count + 1,
        largest: a.largest.max(entry),
    }
}

// The line of a round: its number, and how far the search has come with it.
pub fn round_line(round: u32, a: Progress, out: &mut [u8]) -> Result<usize, Refusal>
    ensures { PutPost (round_line round a) out.old result out.new }
{
    let mut line = [0u8; LINE];
    let n = spell_round(&mut line, round, a);
    answer_lines::put(&line[..n], out)
}

// The line in a buffer with room for it: its length is known when it has been written.
fn spell_round(out: &mut [u8], round: u32, a: Progress) -> usize
    ensures { Appended out.old 0 (round_line round a) out.new result }
{
    let number = append::bytes(out, 0, b"round\t");
    let count = append::number(out, number, round, TAB);
    let largest = append::number(out, count, a.count, TAB);
    append::number(out, largest, a.largest, LINE_END)
}
