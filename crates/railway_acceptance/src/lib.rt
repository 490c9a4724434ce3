// The test of a record: accepted, or refused with the first of rows 3 to 8, 13 and 16 that applies. Any record may come in, also one that
// no text describes; each row looks at every place that it concerns. Besides the test, some of its parts are public for the
// reader of case texts: they judge one row, pair or place of a record by itself, and are no entry points.
#![tactic(auto)]

ghost use Rattle.std.specs.Prelude.{◌≡◌, ◌&&◌, ◌||◌, cond, not, ℕ, ◌*◌, ◌<◌, ◌≤◌, ltb, eqb};
ghost use Rattle.laws.specs.Below.{any_below};
ghost use Rattle.railway.specs.declared.Railway.{Railway};
ghost use Rattle.railway.specs.declared.Side.TheVariants.{Up};
ghost use Rattle.railway.specs.Bounds.{most_sections, most_trains, section_ends, all_ends};
ghost use Rattle.railway.specs.Ends.{same_side, side_index, end_at};
ghost use Rattle.railway.specs.Record.{is_closed, joined_by, link_at, side_of};
ghost use Rattle.railway.specs.Refusals.{number_given, number_of, first};
ghost use Rattle.railway.specs.Rows.{rows_by, count_row, wrong_weight, weight_row, loose_row, outside, known, unknown_link_at};
ghost use Rattle.railway.specs.Rows.{unknown_signal_at, unknown_closed_at, unknown_train_at, owner_of, one_owner, tied};
ghost use Rattle.railway.specs.Rows.{wrong_pair, wrong_link_at, unreturned_at, unjoined, loose_at, longer, most_behind};
ghost use Rattle.railway.specs.Rows.{chained_at, chain_row, shares_at, shut_out_at, place_row};
ghost use Rattle.railway.specs.Lent.{LinksOf, SignalsOf, ClosedOf};
ghost use Rattle.railway_acceptance.specs.Answers.{Judged, Counts, Sided, Lent, seen_at, Looked, RosterOf};

use railway::{Closed, End, Legs, Links, Railway, Refusal, Signals, Train};

// The side of each point's legs, by its index.
type Sides = [u8; Railway::POINTS as usize];

// The trains of a record.
type Roster = [Train; Railway::TRAINS as usize];

// What rows 4 and 5 find in the links: one at or to an end that is not there, one that ties ends which no join may tie, one that is not returned.
// (Three flags, not a Result: one walk tells all three, and a record may have each fault without the others.)
#[derive(Clone, Copy)]
struct Found {
    unknown: bool,
    wrong: bool,
    unreturned: bool,
}

// The test of a record, rows 3 to 8 with 16 behind 3 and 13 behind 6, the order in which they are given. (Row 7 cannot apply: a record has one flag a signal and one a section.)
pub fn test_record(r: Railway) -> Result<(), Refusal>
    ensures { Judged r result }
{
    let s = r.sections;
    let p = r.points;
    let k = r.trains;
    if counts_outside(s, p, k) {
        return Err(Refusal::Count);
    }
    let links = r.links;
    let signals = r.signals;
    let closed = r.closed;
    let legs = r.legs;
    let roster = r.roster;
    let weight = wrong_weights(roster, k);
    let sides = sides_of(legs, p);
    let ends = 2 * s;
    let ports = Railway::SECTION_ENDS + 3 * p;
    let found = look(&links, &sides, ends, ports);
    let unknown = found.unknown
        | unknown_signals(&signals, ends)
        | unknown_closed(&closed, s)
        | unknown_trains(roster, k, s);
    first_row(r, weight, unknown, found.wrong | found.unreturned, false)
}

// The first of these rows that applies, given what rows 16, 4, 5 and 7 say.
pub fn first_row(
    r: Railway,
    weight: bool,
    unknown: bool,
    wrong: bool,
    double: bool,
) -> Result<(), Refusal>
    ensures { number_given result ≡ number_of (first (rows_by (count_row r) weight unknown wrong (loose_row r) (chain_row r) double (place_row r))) }
{
    if counts_outside(r.sections, r.points, r.trains) {
        return Err(Refusal::Count);
    }
    if weight {
        return Err(Refusal::Weight);
    }
    if unknown {
        return Err(Refusal::Unknown);
    }
    if wrong {
        return Err(Refusal::Join);
    }
    let links = r.links;
    if loose_ports(&links, r.points) {
        return Err(Refusal::Loose);
    }
    if chained(&links, r.points) {
        return Err(Refusal::Chain);
    }
    if double {
        return Err(Refusal::Double);
    }
    let closed = r.closed;
    let roster = r.roster;
    if misplaced(roster, &closed, r.trains) {
        return Err(Refusal::Place);
    }
    Ok(())
}

// Row 3.
pub fn counts_outside(s: u8, p: u8, k: u8) -> bool
    ensures { result ≡ outside s p k }
{
    if s < Railway::FEWEST_SECTIONS {
        return true;
    }
    if Railway::SECTIONS < s {
        return true;
    }
    if Railway::POINTS < p {
        return true;
    }
    if k < Railway::FEWEST_TRAINS {
        return true;
    }
    Railway::TRAINS < k
}

// THE LINKS, lent byte by byte; what is promised is promised of every record with these links, counts and legs. Rows 4 and 5, one pass over them. Counts
// come as the numbers of section ends that are there, and of all ends up to the last port that is. A join is judged at the first of its ends.
fn look(links: &Links, sides: &Sides, ends: u8, ports: u8) -> Found
    ensures { (r : Railway) → Lent r links.now sides.now ends ports → Looked r all_ends result.unknown result.wrong result.unreturned }
{
    let mut unknown = false;
    let mut wrong = false;
    let mut unreturned = false;
    for i in 0..Railway::ENDS {
        if !is_seen(links, i) {
            unknown = unknown | unknown_link(links, ends, ports, i);
            wrong = wrong | wrong_link(links, sides, i);
            unreturned = unreturned | is_unreturned(links, i);
        }
    }
    Found {
        unknown: unknown,
        wrong: wrong,
        unreturned: unreturned,
    }
}

// The end of an index is in no join, or joined to one before it, which returns the link.
fn is_seen(links: &Links, i: u8) -> bool
    ensures { (r : Railway) → LinksOf r links.now → result ≡ seen_at r i }
{
    let j = railway::link_in(links, i);
    if Railway::ENDS <= j {
        return true;
    }
    if j < i {
        railway::link_in(links, j) == i
    } else {
        false
    }
}

fn unknown_link(links: &Links, ends: u8, ports: u8, i: u8) -> bool
    ensures { (r : Railway) → LinksOf r links.now → Counts r ends ports → result ≡ unknown_link_at r i }
{
    let j = railway::link_in(links, i);
    if j < Railway::ENDS {
        !(known_at(ends, ports, i) & known_at(ends, ports, j))
    } else {
        false
    }
}

fn wrong_link(links: &Links, sides: &Sides, i: u8) -> bool
    requires { i < all_ends }
    ensures { (r : Railway) → LinksOf r links.now → Sided r sides.now → result ≡ wrong_link_at r i }
{
    let j = railway::link_in(links, i);
    if j < Railway::ENDS {
        wrong_at(sides, i, j)
    } else {
        false
    }
}

fn is_unreturned(links: &Links, i: u8) -> bool
    requires { i < all_ends }
    ensures { (r : Railway) → LinksOf r links.now → result ≡ unreturned_at r i }
{
    let j = railway::link_in(links, i);
    if j < Railway::ENDS {
        !(railway::link_in(links, j) == i)
    } else {
        false
    }
}

// The section or point of the end of an index is there.
fn known_at(ends: u8, ports: u8, i: u8) -> bool
    ensures { (r : Railway) → Counts r ends ports → result ≡ known r (end_at i) }
{
    if i < Railway::SECTION_ENDS {
        i < ends
    } else {
        i < ports
    }
}

// No join may tie the ends of these two indices.
fn wrong_at(sides: &Sides, i: u8, j: u8) -> bool
    requires i_lt_all_ends { i < all_ends }
    requires j_lt_all_ends { j < all_ends }
    ensures { (r : Railway) → Sided r sides.now → result ≡ wrong_pair (tied r (end_at i)) (tied r (end_at j)) }
{
    if one_owner_at(i, j) {
        return true;
    }
    side_in(sides, i) == side_in(sides, j)
}

// They are of one section, or of one point.
fn one_owner_at(i: u8, j: u8) -> bool
    ensures { result ≡ one_owner (owner_of (end_at i)) (owner_of (end_at j)) }
{
    if i < Railway::SECTION_ENDS {
        if j < Railway::SECTION_ENDS {
            i / 2 == j / 2
        } else {
            false
        }
    } else {
        if j < Railway::SECTION_ENDS {
            false
        } else {
            (i - Railway::SECTION_ENDS) / 3 == (j - Railway::SECTION_ENDS) / 3
        }
    }
}

// The side of the end of an index, by its own.
fn side_in(sides: &Sides, i: u8) -> u8
    requires { i < all_ends }
    ensures { (r : Railway) → Sided r sides.now → result ≡ side_index (side_of r (end_at i)) }
{
    if i < Railway::SECTION_ENDS {
        return i % 2;
    }
    let port = i - Railway::SECTION_ENDS;
    let at = (port / 3) as usize;
    let legs = sides[at];
    if port % 3 == 0 {
        if legs == 0 { 1 } else { 0 }
    } else {
        legs
    }
}

// The sides of all points' legs; up for points that are not there.
fn sides_of(legs: [Legs; Railway::POINTS as usize], p: u8) -> Sides
    ensures { (r : Railway) → r.legs ≡ legs → r.points ≡ p → Sided r result }
{
    let mut sides = [1u8; Railway::POINTS as usize];
    for n in 0..Railway::POINTS {
        let at = n as usize;
        sides[at] = legs_index(legs[at], n < p);
    }
    sides
}

// The index of a side of legs; up's where the point is not there.
fn legs_index(legs: Legs, there: bool) -> u8
    ensures { result ≡ side_index (cond there legs.side Up) }
{
    if there {
        let side = legs.side;
        railway::side_index(side)
    } else {
        1
    }
}

// Row 4 at the signals: past the section ends that are there none may stand.
fn unknown_signals(signals: &Signals, ends: u8) -> bool
    requires { ends ≤ section_ends }
    ensures { (r : Railway) → SignalsOf r signals.now → 2 * r.sections ≡ ends → result ≡ any_below (unknown_signal_at r) section_ends }
{
    (ends..Railway::SECTION_ENDS).any(|i| railway::signal_in(signals, i))
}

// Row 4 at the closed sections: past those that are there none may be closed.
fn unknown_closed(closed: &Closed, s: u8) -> bool
    requires { s ≤ most_sections }
    ensures { (r : Railway) → ClosedOf r closed.now → r.sections ≡ s → result ≡ any_below (unknown_closed_at r) most_sections }
{
    (s..Railway::SECTIONS).any(|x| railway::closed_in(closed, x))
}

// Row 6.
fn loose_ports(links: &Links, p: u8) -> bool
    ensures { (r : Railway) → LinksOf r links.now → r.points ≡ p → result ≡ loose_row r }
{
    (0..p).any(|n| loose_port(links, n))
}

fn loose_port(links: &Links, n: u8) -> bool
    ensures { (r : Railway) → LinksOf r links.now → result ≡ loose_at r n }
{
    if n < Railway::POINTS {
        let stem = Railway::SECTION_ENDS + 3 * n;
        is_loose(links, stem) | is_loose(links, stem + 1) | is_loose(links, stem + 2)
    } else {
        true
    }
}

// The end of an index is in no join.
fn is_loose(links: &Links, i: u8) -> bool
    ensures { (r : Railway) → LinksOf r links.now → result ≡ unjoined (link_at r i) }
{
    Railway::ENDS <= railway::link_in(links, i)
}

// Row 13.
fn chained(links: &Links, p: u8) -> bool
    ensures { (r : Railway) → LinksOf r links.now → r.points ≡ p → result ≡ chain_row r }
{
    (0..p).any(|n| chained_at(links, n))
}

fn chained_at(links: &Links, n: u8) -> bool
    ensures { (r : Railway) → LinksOf r links.now → result ≡ chained_at r n }
{
    if n < Railway::POINTS {
        let stem = Railway::SECTION_ENDS + 3 * n;
        is_long(links, stem) | is_long(links, stem + 1) | is_long(links, stem + 2)
    } else {
        false
    }
}

// Past the join of the end of an index more points can be met than may be behind one.
fn is_long(links: &Links, i: u8) -> bool
    ensures { (r : Railway) → LinksOf r links.now → result ≡ longer r most_behind (link_at r i) }
{
    is_longer(links, railway::link_in(links, i), 3)
}

// Past the join that byte j says, more than k points can be met: a walk from point to point, by either leg behind a stem.
fn is_longer(links: &Links, j: u8, k: u8) -> bool
    ensures { (r : Railway) → LinksOf r links.now → result ≡ longer r k (joined_by j) }
{
    if j < Railway::SECTION_ENDS {
        return false;
    }
    if Railway::ENDS <= j {
        return false;
    }
    if k == 0 {
        return true;
    }
    let port = (j - Railway::SECTION_ENDS) % 3;
    if port == 0 {
        is_longer(links, railway::link_in(links, j + 1), k - 1)
            | is_longer(links, railway::link_in(links, j + 2), k - 1)
    } else {
        is_longer(links, railway::link_in(links, j - port), k - 1)
    }
}

// THE TRAINS. Row 16.
fn wrong_weights(roster: Roster, k: u8) -> bool
    requires { k ≤ most_trains }
    ensures { (r : Railway) → RosterOf r roster k → result ≡ weight_row r }
{
    (0..k).any(|t| is_wrong(roster[t as usize]))
}

// A train has a weight that none may have. (A byte is never too large.)
fn is_wrong(x: Train) -> bool
    ensures { result ≡ wrong_weight x.weight }
{
    x.weight < Railway::LEAST_WEIGHT
}

// Row 4 at them.
fn unknown_trains(roster: Roster, k: u8, s: u8) -> bool
    requires { k ≤ most_trains }
    ensures { (r : Railway) → RosterOf r roster k → r.sections ≡ s → result ≡ any_below (unknown_train_at r) k }
{
    (0..k).any(|t| is_unknown(roster[t as usize], s))
}

// A train's start or destination is not there.
fn is_unknown(x: Train, s: u8) -> bool
    ensures { result ≡ not (ltb x.start.0 s && ltb x.destination.0 s) }
{
    !((x.start.0 < s) & (x.destination.0 < s))
}

// Row 8.
fn misplaced(roster: Roster, closed: &Closed, k: u8) -> bool
    requires { k ≤ most_trains }
    ensures { (r : Railway) → RosterOf r roster k → ClosedOf r closed.now → result ≡ place_row r }
{
    places_shared(roster, k) | shut_out(roster, closed, k)
}

// Two trains have one start, or one destination.
fn places_shared(roster: Roster, k: u8) -> bool
    requires { k ≤ most_trains }
    ensures { (r : Railway) → RosterOf r roster k → result ≡ any_below (shares_at r) k }
{
    (0..k).any(|t| shares_before(roster, t))
}

// A train shares its start or its destination with one before it.
fn shares_before(roster: Roster, t: u8) -> bool
    requires { t < most_trains }
    ensures { (r : Railway) (k : ℕ) → RosterOf r roster k → t < k → result ≡ shares_at r t }
{
    let x = roster[t as usize];
    (0..t).any(|u| shares(roster[u as usize], x))
}

// Two trains have one start, or one destination.
fn shares(x: Train, y: Train) -> bool
    ensures { result ≡ (eqb x.start.0 y.start.0 || eqb x.destination.0 y.destination.0) }
{
    (x.start == y.start) | (x.destination == y.destination)
}

// Some train starts or ends on a closed section.
fn shut_out(roster: Roster, closed: &Closed, k: u8) -> bool
    requires { k ≤ most_trains }
    ensures { (r : Railway) → RosterOf r roster k → ClosedOf r closed.now → result ≡ any_below (shut_out_at r) k }
{
    (0..k).any(|t| is_shut(roster[t as usize], closed))
}

// A train's start or destination is closed.
fn is_shut(x: Train, closed: &Closed) -> bool
    ensures { (r : Railway) → ClosedOf r closed.now → result ≡ (is_closed r x.start.0 || is_closed r x.destination.0) }
{
    railway::closed_in(closed, x.start.0) | railway::closed_in(closed, x.destination.0)
}

// Two ends that no join may tie.
pub fn wrong_pair(r: Railway, e: End, f: End) -> bool
    ensures { result ≡ wrong_pair (tied r e) (tied r f) }
{
    if one_owner(e, f) {
        return true;
    }
    r.side_of(e) == r.side_of(f)
}

// Two ends of one section, or of one point.
fn one_owner(e: End, f: End) -> bool
    ensures { result ≡ one_owner (owner_of e) (owner_of f) }
{
    match (e, f) {
        (End::Section(m, _), End::Section(n, _)) => m == n,
        (End::Port(m, _), End::Port(n, _)) => m == n,
        _ => false,
    }
}

// Whether nothing is joined there.
pub fn is_unjoined(j: Option<End>) -> bool
    ensures { result ≡ unjoined j }
{
    j.is_none()
}
