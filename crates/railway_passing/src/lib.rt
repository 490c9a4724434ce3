// Following a train from an end, the points lying as given: from an end to the point that it is joined to, from there to the end by which the train leaves, over four points at most.
// `pass` takes a record, tests it, and tells the section that the train comes to and the points that it meets. That a section is closed makes no difference
// here.
#![tactic(auto)]

ghost use Rattle.std.specs.Prelude.{◌≡◌, ◌+◌, ◌≤◌, ◌<◌, length};
ghost use Rattle.laws.specs.Bits.{bit};
ghost use Rattle.railway.specs.declared.Railway.{Railway};
ghost use Rattle.railway.specs.Lent.{LinksOf};
ghost use Rattle.railway.specs.Record.{joined};
ghost use Rattle.railway.specs.Passing.{Passage, through, most_met, nowhere, meeting, past_point, follow};
ghost use Rattle.railway_passing.specs.Answers.{answer_of, arriving, onward, PassPost};

use railway::{End, Leg, Links, PointNo, Railway, Refusal, SectionNo};

// The most points that a train meets from one section end to the next.
pub const MOST_MET: u8 = 4;

// Where it comes to, how many points it meets, and these in order, the one that it derails at last; 0 behind them. Points and sections count from 0, as in
// the record.
#[derive(Clone, Copy)]
pub struct Passed {
    pub reached: Option<SectionNo>,
    pub count: u8,
    pub points: [u8; MOST_MET as usize],
}

// THE PASSAGE of a train that leaves by an end, points at plus where their bits are set; or the refusal of the record.
pub fn pass(r: Railway, e: End, points: u32) -> Result<Passed, Refusal>
    ensures { PassPost r e points result }
{
    railway_acceptance::test_record(r)?;
    let links = &r.links;
    Ok(past_join(links, points, MOST_MET, join_of(links, e)))
}

// Past a join, with so many points allowed: into a section, or over a point. What is promised here and below is promised of every record with these links.
#[cycle(past_join_past_point)]
fn past_join(links: &Links, points: u32, left: u8, j: Option<End>) -> Passed
    requires { left ≤ most_met }
    ensures few { result.count ≤ left }
    ensures follows { (r : Railway) → LinksOf r links.now → result ≡ answer_of (follow r (bit points) left j) }
{
    let Some(e) = j else {
        return nowhere();
    };
    match e {
        End::Section(n, _) => entering(n),
        End::Port(n, l) => {
            if left == 0 {
                return nowhere();
            }
            past_point(links, points, left - 1, n, l)
        }
    }
}

// Over a point: out by the port that follows, and on past what it is joined to; or the train derails on the point.
#[cycle(past_join_past_point)]
fn past_point(links: &Links, points: u32, left: u8, n: PointNo, l: Leg) -> Passed
    requires { left < most_met }
    ensures few { result.count ≤ left + 1 }
    ensures follows { (r : Railway) → LinksOf r links.now → result ≡ answer_of (past_point r (follow r (bit points) left) n (through l (bit points n.0))) }
{
    let on = through(l, lies_plus(points, n));
    match on {
        None => meeting(n, nowhere()),
        Some(m) => {
            let j = join_of(links, End::Port(n, m));
            meeting(n, past_join(links, points, left, j))
        }
    }
}

// What an end is joined to.
fn join_of(links: &Links, e: End) -> Option<End>
    ensures { (r : Railway) → LinksOf r links.now → result ≡ joined r e }
{
    railway::joined_by(railway::link_in(links, railway::index_of(e)))
}

// The port by which a point is left that is come to by this one: the stem leads on to the set leg and the set leg to the stem; at the leg that is not set a
// train derails.
fn through(l: Leg, plus: bool) -> Option<Leg>
    ensures { onward result ≡ through l plus }
{
    match (l, plus) {
        (Leg::Stem, true) => Some(Leg::Plus),
        (Leg::Stem, false) => Some(Leg::Minus),
        (Leg::Plus, true) | (Leg::Minus, false) => Some(Leg::Stem),
        (Leg::Plus, false) | (Leg::Minus, true) => None,
    }
}

// Point n lies at plus.
fn lies_plus(points: u32, n: PointNo) -> bool
    ensures { result ≡ bit points n.0 }
{
    let at = n.0;
    if 32 <= at {
        return false;
    }
    (points >> at) % 2 == 1
}

// A train that comes to no section and meets no point.
#[tactic(auto, unfolding(crate::specs::Answers::padded))]
fn nowhere() -> Passed
    ensures { result ≡ answer_of nowhere }
{
    Passed {
        reached: None,
        count: 0,
        points: [0; MOST_MET as usize],
    }
}

// A train that comes to a section and meets no point before.
#[tactic(auto, unfolding(crate::specs::Answers::padded))]
fn entering(n: SectionNo) -> Passed
    ensures { result ≡ answer_of (arriving n) }
{
    Passed {
        reached: Some(n),
        count: 0,
        points: [0; MOST_MET as usize],
    }
}

// A point met before all else.
fn meeting(n: PointNo, a: Passed) -> Passed
    requires { a.count < most_met }
    ensures more { result.count ≡ a.count + 1 }
    ensures first { (w : Passage) → length w.met < most_met → a ≡ answer_of w → result ≡ answer_of (meeting n w) }
{
    let old = a.points;
    Passed {
        reached: a.reached,
        count: a.count + 1,
        points: [n.0, old[0], old[1], old[2]],
    }
}
