// The reader of a case text: accepted with its railway, or refused with the first of rows 1 to 8, 13 and 16 that applies. One walk over the text, line by
// line (`case_walk`). The record is built on the way, beside four flags for what it cannot show: a weight that no train may have, a name that is not
// there, a join that may not be, a signal or a closed section named twice. Any bytes may come in, of any length.
#![tactic(auto)]

ghost use Rattle.std.specs.Prelude.{◌≡◌, false};
ghost use Rattle.case_file.specs.Given.{case_read, ReaderPost};
ghost use Rattle.case_draft.specs.Drafting.{cap, opened, draft_of, lines_got, draft_answer};

use case_draft::{Draft, Kind};
use railway::{Railway, Refusal};
use text::Cursor;

// The reader.
pub fn read_case(text: &[u8]) -> Result<Railway, Refusal>
    ensures { ReaderPost text.now (case_read result) }
{
    if case_file::MOST_BYTES < text.len() {
        return Err(Refusal::Length);
    }
    let (draft, _) = read_lines(text).ok_or(Refusal::Form)?;
    answer(draft)
}

// Rows 3 to 8, 13 and 16, in the order in which they are given.
fn answer(d: Draft) -> Result<Railway, Refusal>
    ensures { case_read result ≡ draft_answer d }
{
    railway_acceptance::first_row(d.railway, d.weight, d.unknown, d.wrong, d.double)?;
    Ok(d.railway)
}

// All lines of the text, in their order, and nothing behind them.
fn read_lines(text: &[u8]) -> Option<(Draft, Cursor)>
    ensures { lines_got result ≡ draft_of text.now }
{
    let (s, p, k, c) = case_walk::first_line(text)?;
    let header = Some((begin(s, p, k), c));
    let points = case_walk::lines_of(text, Kind::P, p, header);
    let joins = case_walk::lines_of(text, Kind::J, 0, points);
    let signals = case_walk::lines_of(text, Kind::G, 0, joins);
    let closed = case_walk::lines_of(text, Kind::X, 0, signals);
    let (draft, next) = case_walk::lines_of(text, Kind::T, k, closed)?;
    if next.at < text.len() {
        return None;
    }
    Some((draft, next))
}

// The draft with nothing but the counts; with none where they are out of bounds.
fn begin(s: u64, p: u64, k: u64) -> Draft
    ensures { result ≡ opened s p k }
{
    let sections = capped(s);
    let points = capped(p);
    let trains = capped(k);
    if railway_acceptance::counts_outside(sections, points, trains) {
        return fresh(Railway::empty());
    }
    fresh(Railway {
        sections,
        points,
        trains,
        ..Railway::empty()
    })
}

// A number as far as a byte goes, which is past every bound.
fn capped(n: u64) -> u8
    ensures { result ≡ cap n }
{
    u8::try_from(n).unwrap_or(255)
}

// A record, and nothing noted.
fn fresh(railway: Railway) -> Draft
    ensures { result ≡ record { railway = railway; weight = false; unknown = false; wrong = false; double = false } }
{
    Draft {
        railway,
        weight: false,
        unknown: false,
        wrong: false,
        double: false,
    }
}
