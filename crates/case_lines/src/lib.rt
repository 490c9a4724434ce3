// The lines of a case text, each read at a cursor: what it says and the cursor behind it, or it is not in form. A line is read
// up to the first field that is not the number, end or side that it must be. Any bytes and any cursor may come in.
// A number and the cursor behind it are taken by `let .. else`, and a field that is no number ends the line there: the form that the project gives it.
#![tactic(auto)]

ghost use Rattle.std.specs.Prelude.{◌≡◌};
ghost use Rattle.text.specs.Text.{tab};
ghost use Rattle.text.specs.Reading.{byte_at};
ghost use Rattle.text.specs.Answers.{number_got, byte_got};
ghost use Rattle.case_file.specs.Reading.{case_number_at, side_field_at, leg_field_at, end_field_at, header_at, point_line_at, join_line_at, signal_line_at, closed_line_at, weight_field_at, train_line_at};
ghost use Rattle.case_lines.specs.Answers.{side_got, leg_got, end_got, counts_got, join_got, signal_got, weight_got, train_got};

use railway::{Leg, Side};
use text::{Cursor, LINE_END, TAB, Width};

// An end as it is written, with the document's number.
#[derive(Clone, Copy)]
pub enum NamedEnd {
    OfSection(u64, Side),
    OfPoint(u64, Leg),
}

#[tactic(auto, using(crate::proofs::Chain::steps), unfolding(case_file::specs::Reading::side_field_at, text::specs::Reading::byte_at))]
fn side_field(text: &[u8], c: Cursor) -> Option<(Side, Cursor)>
    ensures { side_got result ≡ side_field_at text.now c.at }
{
    if let Some(up) = text::byte_at(text, c, b'u') {
        return Some((Side::Up, up));
    }
    let down = text::byte_at(text, c, b'd')?;
    Some((Side::Down, down))
}

#[tactic(auto, using(crate::proofs::Chain::steps), unfolding(case_file::specs::Reading::leg_field_at, text::specs::Reading::byte_at))]
fn leg_field(text: &[u8], c: Cursor) -> Option<(Leg, Cursor)>
    ensures { leg_got result ≡ leg_field_at text.now c.at }
{
    if let Some(stem) = text::byte_at(text, c, b's') {
        return Some((Leg::Stem, stem));
    }
    if let Some(plus) = text::byte_at(text, c, b'+') {
        return Some((Leg::Plus, plus));
    }
    let minus = text::byte_at(text, c, b'-')?;
    Some((Leg::Minus, minus))
}

// An end: its number, then a section's side or a point's leg.
#[tactic(auto, using(crate::proofs::Chain::steps), unfolding(case_file::specs::Reading::end_field_at))]
fn end_field(text: &[u8], c: Cursor) -> Option<(NamedEnd, Cursor)>
    ensures { end_got result ≡ end_field_at text.now c.at }
{
    let Some((n, mark)) = number(text, c) else {
        return None;
    };
    if let Some((side, next)) = side_field(text, mark) {
        return Some((NamedEnd::OfSection(n, side), next));
    }
    let (leg, next) = leg_field(text, mark)?;
    Some((NamedEnd::OfPoint(n, leg), next))
}

// The tab in front of a field.
#[tactic(auto, using(crate::proofs::Chain::steps))]
fn tab(text: &[u8], c: Cursor) -> Option<Cursor>
    ensures { byte_got tab result ≡ byte_at text.now tab c.at }
{
    text::byte_at(text, c, TAB)
}

// A number, as a case file writes it.
fn number(text: &[u8], c: Cursor) -> Option<(u64, Cursor)>
    ensures { number_got result ≡ case_number_at text.now c.at }
{
    text::number_at(text, c, Width::Three)
}

// `H`, sections, points, trains.
#[tactic(auto, using(crate::proofs::Chain::steps), unfolding(case_file::specs::Reading::header_at))]
pub fn header_line(text: &[u8], c: Cursor) -> Option<(u64, u64, u64, Cursor)>
    ensures { counts_got result ≡ header_at text.now c.at }
{
    let c1 = text::byte_at(text, c, b'H')?;
    let Some((sections, c2)) = number(text, tab(text, c1)?) else {
        return None;
    };
    let Some((points, c3)) = number(text, tab(text, c2)?) else {
        return None;
    };
    let Some((trains, c4)) = number(text, tab(text, c3)?) else {
        return None;
    };
    let c5 = text::byte_at(text, c4, LINE_END)?;
    Some((sections, points, trains, c5))
}

// `P`, the number n, the side of the legs.
#[tactic(auto, using(crate::proofs::Chain::steps), unfolding(case_file::specs::Reading::point_line_at))]
pub fn point_line(text: &[u8], c: Cursor, n: u64) -> Option<(Side, Cursor)>
    ensures { side_got result ≡ point_line_at text.now n c.at }
{
    let c1 = text::byte_at(text, c, b'P')?;
    let Some((m, c2)) = number(text, tab(text, c1)?) else {
        return None;
    };
    let (side, c3) = side_field(text, tab(text, c2)?)?;
    let c4 = text::byte_at(text, c3, LINE_END)?;
    if m != n {
        return None;
    }
    Some((side, c4))
}

// `J`, two ends.
#[tactic(auto, using(crate::proofs::Chain::steps), unfolding(case_file::specs::Reading::join_line_at))]
pub fn join_line(text: &[u8], c: Cursor) -> Option<(NamedEnd, NamedEnd, Cursor)>
    ensures { join_got result ≡ join_line_at text.now c.at }
{
    let c1 = text::byte_at(text, c, b'J')?;
    let (one, c2) = end_field(text, tab(text, c1)?)?;
    let (other, c3) = end_field(text, tab(text, c2)?)?;
    let c4 = text::byte_at(text, c3, LINE_END)?;
    Some((one, other, c4))
}

// `G`, a section end.
#[tactic(auto, using(crate::proofs::Chain::steps), unfolding(case_file::specs::Reading::signal_line_at))]
pub fn signal_line(text: &[u8], c: Cursor) -> Option<(u64, Side, Cursor)>
    ensures { signal_got result ≡ signal_line_at text.now c.at }
{
    let c1 = text::byte_at(text, c, b'G')?;
    let Some((n, c2)) = number(text, tab(text, c1)?) else {
        return None;
    };
    let (side, c3) = side_field(text, c2)?;
    let c4 = text::byte_at(text, c3, LINE_END)?;
    Some((n, side, c4))
}

// `X`, a section.
#[tactic(auto, using(crate::proofs::Chain::steps), unfolding(case_file::specs::Reading::closed_line_at))]
pub fn closed_line(text: &[u8], c: Cursor) -> Option<(u64, Cursor)>
    ensures { number_got result ≡ closed_line_at text.now c.at }
{
    let c1 = text::byte_at(text, c, b'X')?;
    let Some((n, c2)) = number(text, tab(text, c1)?) else {
        return None;
    };
    let c3 = text::byte_at(text, c2, LINE_END)?;
    Some((n, c3))
}

// A weight behind a tab, if there is a tab.
#[tactic(auto, using(crate::proofs::Chain::steps), unfolding(case_file::specs::Reading::weight_field_at, text::specs::Reading::byte_at))]
fn weight_field(text: &[u8], c: Cursor) -> Option<(Option<u64>, Cursor)>
    ensures { weight_got result ≡ weight_field_at text.now c.at }
{
    let Some(field) = tab(text, c) else {
        return Some((None, c));
    };
    let Some((w, next)) = number(text, field) else {
        return None;
    };
    Some((Some(w), next))
}

// `T`, the number n, heading, start, destination, and a weight where one is written.
#[tactic(auto, using(crate::proofs::Chain::steps), unfolding(case_file::specs::Reading::train_line_at))]
pub fn train_line(text: &[u8], c: Cursor, n: u64) -> Option<(Side, u64, u64, Option<u64>, Cursor)>
    ensures { train_got result ≡ train_line_at text.now n c.at }
{
    let c1 = text::byte_at(text, c, b'T')?;
    let Some((m, c2)) = number(text, tab(text, c1)?) else {
        return None;
    };
    let (heading, c3) = side_field(text, tab(text, c2)?)?;
    let Some((start, c4)) = number(text, tab(text, c3)?) else {
        return None;
    };
    let Some((destination, c5)) = number(text, tab(text, c4)?) else {
        return None;
    };
    let (weight, c6) = weight_field(text, c5)?;
    let c7 = text::byte_at(text, c6, LINE_END)?;
    if m != n {
        return None;
    }
    Some((heading, start, destination, weight, c7))
}
