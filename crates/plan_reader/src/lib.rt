// One line of a plan, read for the checker: the first line with its figure, or the code, the figure and the entry of the setting table of a
// line for a placement. It is read field by field with a cursor in the text that it stands in, each field only as it is spelled, so that its end
// need not be looked for first and nothing is read twice. Any bytes of any length may come in. What is promised is promised of every accepted
// railway whose table is handed in (crate `railway_compiled`).
#![tactic(auto)]

ghost use Rattle.std.specs.Prelude.{◌≡◌, ◌≤◌};
ghost use Rattle.std.proofs.Math.Option.{none};
ghost use Rattle.text.specs.Answers.{more_digits, number_got};
ghost use Rattle.railway.specs.declared.Railway.{Railway};
ghost use Rattle.railway.specs.Bounds.{most_points, most_trains};
ghost use Rattle.railway.specs.Rows.{record_refusal};
ghost use Rattle.plan.specs.Reading.{read_line};
ghost use Rattle.railway_compiled.specs.Table.{Compiled};
ghost use Rattle.plan_reader.specs.Answers.{answer_for};
ghost use Rattle.plan_reader.specs.Places.{ReadAt};
ghost use Rattle.plan_reader.specs.Walk.{BeginsLikeStart, word_got, word_at, number_tab, section_at, sections_at, figure_at, opens_at, signs_at, points_at, fields_at, entry_at, sections_got};

use game_placement::{Placement, TRAIN_BITS};
use railway::Railway;
use railway_compiled::Table;
use text::{Cursor, LINE_END, TAB, Width};

// What a line says: the start's figure; or a placement's code, its figure and its entry of the setting table.
#[derive(Clone, Copy)]
pub enum PlanLine {
    Start(u32),
    Placed(u32, u32, u32),
}

// One line: what it says, or that it is none.
pub fn read_line(table: &Table, text: &[u8]) -> Option<PlanLine>
    ensures { (r : Railway) → Compiled r table.now → result ≡ answer_for r (read_line r text.now) }
{
    let (line, end) = read_at(table, text, 0)?;
    if end == text.len() {
        return Some(line);
    }
    None
}

// What the line says that begins at a place of a text, and the place behind it.
pub fn read_at(table: &Table, text: &[u8], at: usize) -> Option<(PlanLine, usize)>
    ensures { (r : Railway) → Compiled r table.now → ReadAt r text.now at result }
{
    let c = Cursor { at: at };
    if text::peek(text, c) == b'p' {
        return start_at(text, c);
    }
    placement_at(table, text, c)
}

// A number and the tab behind it.
#[tactic(auto, using(crate::proofs::Chain::steps), unfolding(crate::specs::Walk::number_tab))]
fn number_tab(text: &[u8], c: Cursor, w: Width) -> Option<(u64, Cursor)>
    ensures { number_got result ≡ number_tab text.now (more_digits w) c.at }
{
    let (n, behind) = text::number_at(text, c, w)?;
    let next = text::byte_at(text, behind, TAB)?;
    Some((n, next))
}

// The section of train t, less one, if it is there; nothing is read for a train that is not.
#[tactic(auto, using(crate::proofs::Chain::steps), unfolding(crate::specs::Walk::section_at))]
fn section_at(text: &[u8], s: u8, k: u8, t: u8, c: Cursor) -> Option<(u8, Cursor)>
    ensures { number_got result ≡ section_at text.now s k t c.at }
{
    if k <= t {
        return Some((0, c));
    }
    let (n, next) = number_tab(text, c, Width::Three)?;
    if n == 0 {
        return None;
    }
    let x = n - 1;
    if x < s as u64 {
        return Some((x as u8, next));
    }
    None
}

// The sections of all trains.
#[tactic(auto, using(crate::proofs::Chain::steps), unfolding(crate::specs::Walk::sections_at))]
fn sections_at(text: &[u8], s: u8, k: u8, from: Cursor) -> Option<(Placement, Cursor)>
    ensures { sections_got result ≡ sections_at text.now s k from.at }
{
    let (x, c1) = section_at(text, s, k, 0, from)?;
    let (y, c2) = section_at(text, s, k, 1, c1)?;
    let (z, c3) = section_at(text, s, k, 2, c2)?;
    let (w, c4) = section_at(text, s, k, 3, c3)?;
    let q = Placement {
        sections: [x, y, z, w],
    };
    Some((q, c4))
}

// A figure that is not none.
#[tactic(auto, using(crate::proofs::Chain::steps), unfolding(crate::specs::Walk::figure_at))]
fn figure_at(text: &[u8], c: Cursor) -> Option<(u64, Cursor)>
    ensures { number_got result ≡ figure_at text.now c.at }
{
    let (n, next) = text::number_at(text, c, Width::Ten)?;
    if n < game_tables::NO_FIGURE as u64 {
        return Some((n, next));
    }
    None
}

// The entry of the setting table that k trains and m points make, up to the line end and with it.
#[tactic(auto, using(crate::proofs::Chain::steps), unfolding(crate::specs::Walk::entry_at))]
fn entry_at(text: &[u8], k: u8, m: u8, c: Cursor) -> Option<(u64, Cursor)>
    ensures { number_got result ≡ entry_at text.now k m c.at }
{
    if Railway::TRAINS < k {
        return None;
    }
    if Railway::POINTS < m {
        return None;
    }
    fields_at(text, k, m, c)
}

#[tactic(auto, using(crate::proofs::Chain::steps), unfolding(crate::specs::Walk::fields_at))]
fn fields_at(text: &[u8], k: u8, m: u8, c: Cursor) -> Option<(u64, Cursor)>
    requires { (k ≤ most_trains) × (m ≤ most_points) }
    ensures { number_got result ≡ fields_at text.now k m c.at }
{
    let c1 = text::byte_at(text, c, TAB)?;
    let (opens, c2) = opens_at(text, k, c1)?;
    let c3 = text::byte_at(text, c2, TAB)?;
    let (points, c4) = points_at(text, m, c3)?;
    let c5 = text::byte_at(text, c4, LINE_END)?;
    Some((points + opens, c5))
}

// Open trains: `0`, or their digits, which rise.
fn opens_at(text: &[u8], k: u8, c: Cursor) -> Option<(u64, Cursor)>
    requires { k ≤ most_trains }
    ensures { number_got result ≡ opens_at text.now k c.at }
{
    let mut at = c.at;
    if text::peek(text, c) == b'0' {
        return Some((0, Cursor { at: at + 1 }));
    }
    let mut v: u64 = 0;
    for t in 0..k {
        if text::peek(text, Cursor { at: at }) == b'1' + t {
            v += 1u64 << (TRAIN_BITS as u64 + t as u64);
            at += 1;
        }
    }
    if v == 0 {
        return None;
    }
    Some((v, Cursor { at: at }))
}

// Points: `.` where there are none, or a sign for each.
#[tactic(auto, using(crate::proofs::Chain::steps), unfolding(crate::specs::Walk::points_at))]
fn points_at(text: &[u8], m: u8, c: Cursor) -> Option<(u64, Cursor)>
    requires { m ≤ most_points }
    ensures { number_got result ≡ points_at text.now m c.at }
{
    if m == 0 {
        let next = text::byte_at(text, c, b'.')?;
        return Some((0, next));
    }
    signs_at(text, m, c)
}

fn signs_at(text: &[u8], m: u8, c: Cursor) -> Option<(u64, Cursor)>
    requires { m ≤ most_points }
    ensures { number_got result ≡ signs_at text.now m 0 0 c.at }
{
    let mut at = c.at;
    let mut v: u64 = 0;
    for i in 0..m {
        let b = text::peek(text, Cursor { at: at });
        if b == b'+' {
            v += 1u64 << (i as u64);
        } else {
            if b != b'-' {
                return None;
            }
        }
        at += 1;
    }
    Some((v, Cursor { at: at }))
}

// These bytes, one after the other.
fn word_at(text: &[u8], word: &[u8], c: Cursor) -> Option<Cursor>
    ensures { word_got result ≡ word_at text.now word.now c.at }
{
    let mut at = c;
    for b in word {
        at = text::byte_at(text, at, *b)?;
    }
    Some(at)
}

// A line that begins like a first line.
fn start_at(text: &[u8], c: Cursor) -> Option<(PlanLine, usize)>
    ensures { (r : Railway) → record_refusal r ≡ none → BeginsLikeStart text.now c.at → ReadAt r text.now c.at result }
{
    let c1 = word_at(text, b"plan\t", c)?;
    let (n, c2) = figure_at(text, c1)?;
    let c3 = text::byte_at(text, c2, LINE_END)?;
    Some((PlanLine::Start(n as u32), c3.at))
}

// Any other.
fn placement_at(table: &Table, text: &[u8], c: Cursor) -> Option<(PlanLine, usize)>
    ensures { (r : Railway) → Compiled r table.now → ¬ (BeginsLikeStart text.now c.at) → ReadAt r text.now c.at result }
{
    let s = railway_compiled::sections_in(table);
    let m = railway_compiled::points_in(table);
    let k = railway_compiled::trains_in(table);
    let (q, c1) = sections_at(text, s, k, c)?;
    let (n, c2) = figure_at(text, c1)?;
    let (v, c3) = entry_at(text, k, m, c2)?;
    Some((
        PlanLine::Placed(game_moves::code_of(table, q), n as u32, v as u32),
        c3.at,
    ))
}
