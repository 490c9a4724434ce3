// What program deskrun puts for a state, for the opening of a desk and for a line that is read at one: a text in a lent buffer, the desk behind it, and whether lines are read from there on.
#![tactic(auto)]

ghost use Rattle.std.specs.Prelude.{◌≡◌, ◌≤◌};
ghost use Rattle.std.proofs.Math.Option.{none};
ghost use Rattle.railway.specs.Bounds.{most_points, most_trains};
ghost use Rattle.railway.specs.Rows.{record_refusal};
ghost use Rattle.answer_lines.specs.Lines.{PutPost};
ghost use Rattle.desk_calls.specs.Answers.{desk_at};
ghost use Rattle.desk_lines.specs.Panel.{state_line};
ghost use Rattle.desk_text.specs.Said.{given_said, state_said, opening_said, moved_said, line_said, SaidPost};

use desk_calls::Desk;
use desk_lines::LINE;
use game_placement::Placement;
use game_tables::NO_FIGURE;
use railway::{Railway, Refusal};

// What was put for an opening or for a line, the desk behind it, and whether lines are read from there on. The desk is there also where none are: the contract
// (`SaidPost`) says which it is.
#[derive(Clone, Copy)]
pub struct Step {
    pub desk: Desk,
    pub put: Result<usize, Refusal>,
    pub going: bool,
}

// What is put for the opening: a refusal, `none`, or the state at the start.
pub fn open_text(r: Railway, figures: &[u32], settings: &[u32], out: &mut [u8]) -> Step
    ensures { SaidPost (opening_said r figures.now settings.now) out.old (desk_at result.desk) result.put result.going out.new }
{
    match Desk::open(r, figures, settings) {
        Ok(Some(desk)) => state_text(desk, r, figures, settings, out),
        Ok(None) => Step {
            desk: Desk::nowhere(),
            put: answer_lines::none_line(out),
            going: false,
        },
        Err(f) => Step {
            desk: Desk::nowhere(),
            put: answer_lines::refusal_line(f, out),
            going: false,
        },
    }
}

// What is put for a line that is handed in without its end: a refusal, or the state that the report leads to. A line that is no report is refused as one that does not count.
pub fn line_text(
    desk: Desk,
    line: &[u8],
    r: Railway,
    figures: &[u32],
    settings: &[u32],
    out: &mut [u8],
) -> Step
    ensures { SaidPost (line_said r figures.now settings.now (desk_at desk) line.now)
        out.old (desk_at result.desk) result.put result.going out.new }
{
    match desk_lines::report_in(line) {
        None => Step {
            desk,
            put: answer_lines::refusal_line(Refusal::Report, out),
            going: true,
        },
        Some((t, x)) => report_text(
            desk,
            r,
            figures,
            settings,
            desk_lines::place_of(t),
            desk_lines::place_of(x),
            out,
        ),
    }
}

// The same for a report.
fn report_text(
    desk: Desk,
    r: Railway,
    figures: &[u32],
    settings: &[u32],
    t: u8,
    x: u8,
    out: &mut [u8],
) -> Step
    ensures { SaidPost (moved_said r figures.now settings.now (desk_at desk) t x) out.old (desk_at result.desk) result.put result.going out.new }
{
    let (next, answer) = desk.report(r, figures, settings, t, x);
    match answer {
        Ok(()) => state_text(next, r, figures, settings, out),
        Err(f) => Step {
            desk: next,
            put: answer_lines::refusal_line(f, out),
            going: true,
        },
    }
}

// What is put for the state where a desk stands.
pub fn state_text(desk: Desk, r: Railway, figures: &[u32], settings: &[u32], out: &mut [u8]) -> Step
    ensures { SaidPost (state_said r figures.now settings.now (desk_at desk)) out.old (desk_at result.desk) result.put result.going out.new }
{
    match desk.setting(r, figures, settings) {
        Ok(v) => given_text(desk, r, figures, v, out),
        Err(f) => Step {
            desk,
            put: answer_lines::refusal_line(f, out),
            going: false,
        },
    }
}

// With the setting that it gives: `home`, or the line of the state, read off what the desk carries.
fn given_text(desk: Desk, r: Railway, figures: &[u32], v: u32, out: &mut [u8]) -> Step
    ensures { record_refusal r ≡ none → SaidPost (given_said r figures.now (desk_at desk) v) out.old (desk_at result.desk) result.put result.going out.new }
{
    let at = desk.at;
    if desk.arrived == r.trains {
        return Step {
            desk,
            put: desk_lines::home_line(out),
            going: false,
        };
    }
    let n = game_tables::entry_at(figures, desk.code, NO_FIGURE);
    Step {
        desk,
        put: put_state(r.trains, r.points, at, n, v, out),
        going: true,
    }
}

// The line of a state, made in a buffer with room for that of an accepted case.
fn put_state(k: u8, m: u8, q: Placement, n: u32, v: u32, out: &mut [u8]) -> Result<usize, Refusal>
    ensures { k ≤ most_trains → m ≤ most_points → PutPost (state_line k m q n v) out.old result out.new }
{
    let mut line = [0u8; LINE];
    let end = desk_lines::state_line(&mut line, 0, k, m, q, n, v);
    answer_lines::put(&line[..end], out)
}
