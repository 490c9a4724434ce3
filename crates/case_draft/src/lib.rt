// What a reader keeps of a case text on its way: the record as it is built, line by line, beside four flags for what the record cannot show.
// The types are declared here; specs/ has what each line makes of a draft and what a draft is answered with, proofs/ that it is the text's answer.
#![tactic(auto)]

ghost use Rattle.std.specs.Prelude.{◌≡◌, ◌-◌, cond, None, Some};
ghost use Rattle.railway.specs.Rows.{wrong_weight};
ghost use Rattle.case_file.specs.Rows.{within};
ghost use Rattle.case_lines.specs.Answers.{end_named, join_named, train_named};
ghost use Rattle.case_draft.specs.Lines.{NotInForm, InForm};
ghost use Rattle.case_draft.specs.Drafting.{end_in, unknown_in, put_point, faulty, put_join, put_signal, put_closed, weighed_in, put_train, letter, counted};

use case_lines::NamedEnd;
use railway::{End, PointNo, Railway, SectionNo, Side, Train};
use text::Cursor;

// The record so far; a weight was one that no train may have; a name was not there; a join may not be; a signal, or a closed section, was named twice.
#[derive(Clone, Copy)]
pub struct Draft {
    pub railway: Railway,
    pub weight: bool,
    pub unknown: bool,
    pub wrong: bool,
    pub double: bool,
}

// The kinds of line behind the first, by their letters.
#[derive(Clone, Copy)]
pub enum Kind {
    P,
    J,
    G,
    X,
    T,
}

// What tells the lines of a kind: the letter that each begins with, and whether the first line says how many there are.
#[derive(Clone, Copy)]
pub struct Mark {
    pub letter: u8,
    pub counted: bool,
}

impl Kind {
    // The kind's entry, as far as it tells the lines.
    pub fn mark(self) -> Mark
        ensures { result ≡ record { letter = letter self; counted = counted self } }
    {
        Mark {
            letter: self.letter(),
            counted: self.is_counted(),
        }
    }

    // The letter that each line of the kind begins with.
    pub fn letter(self) -> u8
        ensures { result ≡ letter self }
    {
        match self {
            Kind::P => b'P',
            Kind::J => b'J',
            Kind::G => b'G',
            Kind::X => b'X',
            Kind::T => b'T',
        }
    }

    // Whether the first line says how many there are.
    pub fn is_counted(self) -> bool
        ensures { result ≡ counted self }
    {
        matches!(self, Kind::P | Kind::T)
    }
}

// Lines as they were read: the draft that they gave, and the place behind them; none, where they are not in form.
pub type Lines = Option<(Draft, Cursor)>;

// Lines in form.
pub fn in_form(d: Draft, next: Cursor) -> Lines
    ensures { result ≡ InForm d next }
{
    Some((d, next))
}

// Lines that are not in form.
pub fn not_in_form() -> Lines
    ensures { result ≡ NotInForm }
{
    None
}

// The index of a number between 1 and a count.
fn index_within(n: u64, count: u8) -> Option<u8>
    ensures { result ≡ cond (within n count) (Some (n - 1)) None }
{
    if (1..=count as u64).contains(&n) {
        Some((n - 1) as u8)
    } else {
        None
    }
}

// The draft with a name noted that is not there.
fn noted(d: Draft) -> Draft
    ensures { result ≡ unknown_in d }
{
    Draft { unknown: true, ..d }
}

#[tactic(auto, unfolding(crate::specs::Drafting::put_point))]
pub fn put_point(d: Draft, n: u64, side: Side) -> Draft
    ensures { result ≡ put_point d n side }
{
    let Some(i) = index_within(n, d.railway.points) else {
        return d;
    };
    Draft {
        railway: d.railway.with_legs(PointNo(i), side),
        ..d
    }
}

#[tactic(auto, unfolding(crate::specs::Drafting::put_join))]
pub fn put_join(d: Draft, one: NamedEnd, other: NamedEnd) -> Draft
    ensures { result ≡ put_join d (join_named one other) }
{
    let (Some(e), Some(f)) = (end_in(d.railway, one), end_in(d.railway, other)) else {
        return noted(d);
    };
    Draft {
        railway: d.railway.with_join(e, f),
        wrong: d.wrong || is_faulty(d.railway, e, f),
        ..d
    }
}

// Two ends that no join may tie, or one of them is in a join already.
fn is_faulty(r: Railway, e: End, f: End) -> bool
    ensures { result ≡ faulty r e f }
{
    railway_acceptance::wrong_pair(r, e, f) || r.joined(e).is_some() || r.joined(f).is_some()
}

#[tactic(auto, unfolding(crate::specs::Drafting::put_signal))]
pub fn put_signal(d: Draft, n: u64, side: Side) -> Draft
    ensures { result ≡ put_signal d (record { number = n; side = side }) }
{
    let Some(e) = end_in(d.railway, NamedEnd::OfSection(n, side)) else {
        return noted(d);
    };
    Draft {
        railway: d.railway.with_signal(e),
        double: d.double || d.railway.has_signal(e),
        ..d
    }
}

#[tactic(auto, unfolding(crate::specs::Drafting::put_closed))]
pub fn put_closed(d: Draft, n: u64) -> Draft
    ensures { result ≡ put_closed d n }
{
    let Some(x) = index_within(n, d.railway.sections) else {
        return noted(d);
    };
    Draft {
        railway: d.railway.with_closed(x),
        double: d.double || d.railway.closed_at(x),
        ..d
    }
}

// Whether no train may have a weight.
fn is_wrong(w: u64) -> bool
    ensures { result ≡ wrong_weight w }
{
    !(Railway::LEAST_WEIGHT as u64..=Railway::MOST_WEIGHT as u64).contains(&w)
}

// The draft with a weight noted, if it is such a one.
fn weighed(d: Draft, w: u64) -> Draft
    ensures { result ≡ weighed_in d w }
{
    Draft {
        weight: d.weight || is_wrong(w),
        ..d
    }
}

// A train without a weight has 1. A weight that a byte cannot have stands in the record as another; it has been noted.
#[tactic(auto, unfolding(crate::specs::Drafting::put_train))]
pub fn put_train(
    d: Draft,
    n: u64,
    heading: Side,
    start: u64,
    destination: u64,
    weight: Option<u64>,
) -> Draft
    ensures { result ≡ put_train d n (train_named heading start destination weight) }
{
    let w = weight.unwrap_or(1);
    let e = weighed(d, w);
    let r = e.railway;
    let (Some(t), Some(from), Some(to)) = (
        index_within(n, r.trains),
        index_within(start, r.sections),
        index_within(destination, r.sections),
    ) else {
        return noted(e);
    };
    let train = Train {
        heading,
        start: SectionNo(from),
        destination: SectionNo(to),
        weight: (w % 256) as u8,
    };
    Draft {
        railway: r.with_train(t, train),
        ..e
    }
}

// The end that a line names, counted from 0, if it is there by the record's counts.
fn end_in(r: Railway, e: NamedEnd) -> Option<End>
    ensures { result ≡ end_in r (end_named e) }
{
    match e {
        NamedEnd::OfSection(n, side) => {
            let i = index_within(n, r.sections)?;
            Some(End::Section(SectionNo(i), side))
        }
        NamedEnd::OfPoint(n, leg) => {
            let i = index_within(n, r.points)?;
            Some(End::Port(PointNo(i), leg))
        }
    }
}
