// The ways from each section end, over all settings of the points: which points matter, how they have to lie, and the section at the end. No way asks a
// point to lie both ways, so each suits some settings, and a setting suits at most one.
// `ways_of` makes the table from the links of a record and flags for the sections that are shut; the others read it, and are total. What they promise, they
// promise of every railway whose table it is; of words that are no railway's table no definition says anything.
#![tactic(auto)]

ghost use Rattle.std.specs.Prelude.{◌≡◌, Bool, ℕ, ◌+◌, ◌*◌, ◌^◌, ◌<◌, ◌≤◌, replicate};
ghost use Rattle.laws.specs.Bits.{bit};
ghost use Rattle.railway.specs.declared.Railway.{Railway};
ghost use Rattle.railway.specs.Bounds.{most_points, section_ends};
ghost use Rattle.railway.specs.Ends.{leg_at, end_at};
ghost use Rattle.railway.specs.Record.{is_closed, joined_by};
ghost use Rattle.railway.specs.Lent.{LinksOf};
ghost use Rattle.railway.specs.Passing.{entered};
ghost use Rattle.railway_routes.specs.Routes.{bars, want_with, routes, routes_laid, routes_over, routes_from, nth, no_section, section_byte, to_byte, way_word, way_words, flagged, Laid, Put};

use railway::{Closed, Links, Railway};

// The most points that a train meets between two section ends.
const MOST_MET: u8 = 4;

// The most ways from a section end.
pub const MOST_WAYS: u8 = 16;

// What stands for no section, and in all three words of a way that is not there.
pub const NO_SECTION: u8 = 255;

// Words of one end's ways: three for each.
const WORDS: usize = 3 * (MOST_WAYS as usize);

// Words of a table.
pub const ALL_WORDS: usize = WORDS * (Railway::SECTION_ENDS as usize);

// The ways of a railway: for each section end so many, and of each the section, the points that matter, and those of them that have to lie at plus.
pub type Ways = [u16; ALL_WORDS];

// A walk from a section end, so far: how many points it may still meet, which points matter, and which of those have to lie at plus.
#[derive(Clone, Copy)]
struct Walk {
    left: u8,
    care: u16,
    want: u16,
}

// The ways of every railway with these links, to sections that are not flagged.
pub fn ways_of(links: &Links, closed: &Closed) -> Ways
    ensures { (r : Railway) → LinksOf r links.now → Laid r (flagged closed.now) result }
{
    let mut ways = [NO_SECTION as u16; ALL_WORDS];
    lay_ways(&mut ways, links, closed);
    ways
}

// The same, laid into a table in which no way stands yet.
fn lay_ways(ways: &mut Ways, links: &Links, closed: &Closed)
    ensures { ways.old ≡ replicate way_words no_section → (r : Railway) → LinksOf r links.now → Laid r (flagged closed.now) ways.new }
{
    let walk = Walk {
        left: MOST_MET,
        care: 0,
        want: 0,
    };
    for e in 0..Railway::SECTION_ENDS {
        let at = WORDS * (e as usize);
        let j = railway::link_in(links, e);
        put_past(ways, links, closed, at, walk, j);
    }
}

// Writes the ways past a link from a place on. Tells the place behind them.
#[cycle(put_laid_put_over_put_past)]
fn put_past(ways: &mut Ways, links: &Links, closed: &Closed, at: usize, walk: Walk, j: u8) -> usize
    requires { at + 3 * 2 ^ walk.left ≤ way_words }
    ensures room { result ≤ at + 3 * 2 ^ walk.left }
    ensures put { (r : Railway) → LinksOf r links.now
        → Put (routes r (flagged closed.now) walk.left walk.care walk.want (joined_by j)) at ways.old ways.new result }
{
    if j < Railway::SECTION_ENDS {
        let x = j / 2;
        if closed[x as usize] {
            return at;
        }
        ways[at] = x as u16;
        ways[at + 1] = walk.care;
        ways[at + 2] = walk.want;
        return at + 3;
    }
    if walk.left == 0 {
        return at;
    }
    if j < Railway::ENDS {
        let p = j - Railway::SECTION_ENDS;
        let over = Walk {
            left: walk.left - 1,
            ..walk
        };
        put_over(ways, links, closed, at, over, p / 3, p % 3)
    } else {
        at
    }
}

// The same over a point, come to by the port of this index: by the stem to either leg, at minus first; by a leg to the stem.
#[cycle(put_laid_put_over_put_past)]
fn put_over(
    ways: &mut Ways,
    links: &Links,
    closed: &Closed,
    at: usize,
    walk: Walk,
    n: u8,
    leg: u8,
) -> usize
    requires left_bound { at + 3 * (2 * 2 ^ walk.left) ≤ way_words }
    requires n_lt_most_points { n < most_points }
    ensures room { result ≤ at + 3 * (2 * 2 ^ walk.left) }
    ensures put { (r : Railway) → LinksOf r links.now
        → Put (routes_over r (routes r (flagged closed.now) walk.left) walk.care walk.want (record { 0 = n }) (leg_at leg))
        at ways.old ways.new result }
{
    match leg {
        0 => {
            let next = put_laid(ways, links, closed, at, walk, n, false, 2);
            put_laid(ways, links, closed, next, walk, n, true, 1)
        }
        1 => put_laid(ways, links, closed, at, walk, n, true, 0),
        _ => put_laid(ways, links, closed, at, walk, n, false, 0),
    }
}

// The same over a point that lies so, and out by the port of this index.
#[cycle(put_laid_put_over_put_past)]
fn put_laid(
    ways: &mut Ways,
    links: &Links,
    closed: &Closed,
    at: usize,
    walk: Walk,
    n: u8,
    plus: bool,
    out: u8,
) -> usize
    requires left_bound { at + 3 * 2 ^ walk.left ≤ way_words }
    requires n_lt_most_points { n < most_points }
    requires out_bound { out < 3 }
    ensures room { result ≤ at + 3 * 2 ^ walk.left }
    ensures put { (r : Railway) → LinksOf r links.now
        → Put (routes_laid r (routes r (flagged closed.now) walk.left) walk.care walk.want (record { 0 = n }) plus (leg_at out))
        at ways.old ways.new result }
{
    if barred(walk.care, walk.want, n, plus) {
        return at;
    }
    let one = point_bit(n);
    let lies = want_with(walk.want, one, plus);
    let j = railway::link_in(links, Railway::SECTION_ENDS + 3 * n + out);
    let past = Walk {
        care: walk.care | one,
        want: lies,
        ..walk
    };
    put_past(ways, links, closed, at, past, j)
}

// Point n cannot lie so: it lies otherwise already.
fn barred(care: u16, want: u16, n: u8, plus: bool) -> bool
    requires { n < most_points }
    ensures { result ≡ bars care want n plus }
{
    if (care >> n) % 2 == 1 {
        let lies = (want >> n) % 2 == 1;
        if plus { !lies } else { lies }
    } else {
        false
    }
}

// The bit of a point.
fn point_bit(n: u8) -> u16
    requires { n < most_points }
    ensures { result ≡ 2 ^ n }
{
    1u16 << n
}

// How the points lie with one added.
fn want_with(want: u16, one: u16, plus: bool) -> u16
    ensures { (n : ℕ) → one ≡ 2 ^ n → result ≡ want_with want n plus }
{
    if plus { want | one } else { want }
}

// READING THE TABLE. (Three names for the three words of a way, each a line over `word`: callers read which word they ask for, and the solver's loops make no struct of three.)
// The section at the end of way j from the section end with index e; `NO_SECTION`: there is no such way.
pub fn way_to(ways: &Ways, e: u8, j: u8) -> u8
    ensures way { (r : Railway) (shut : ℕ → Bool) → Laid r shut ways.now → e < section_ends → result ≡ to_byte (nth (routes_from r shut (end_at e)) j) }
    ensures past { section_ends ≤ e → result ≡ no_section }
{
    (word(ways, e, j, 0) % 256) as u8
}

// The points that matter on it; where there is no such way `NO_SECTION`.
pub fn way_care(ways: &Ways, e: u8, j: u8) -> u32
    ensures way { (r : Railway) (shut : ℕ → Bool) → Laid r shut ways.now → e < section_ends → result ≡ way_word (nth (routes_from r shut (end_at e)) j) 1 }
    ensures past { section_ends ≤ e → result ≡ no_section }
{
    word(ways, e, j, 1)
}

// Those of them that have to lie at plus; where there is no such way `NO_SECTION`.
pub fn way_want(ways: &Ways, e: u8, j: u8) -> u32
    ensures way { (r : Railway) (shut : ℕ → Bool) → Laid r shut ways.now → e < section_ends → result ≡ way_word (nth (routes_from r shut (end_at e)) j) 2 }
    ensures past { section_ends ≤ e → result ≡ no_section }
{
    word(ways, e, j, 2)
}

// One of the three words of a way.
fn word(ways: &Ways, e: u8, j: u8, i: usize) -> u32
    requires { i < 3 }
    ensures way { (r : Railway) (shut : ℕ → Bool) → Laid r shut ways.now → e < section_ends → result ≡ way_word (nth (routes_from r shut (end_at e)) j) i }
    ensures past { section_ends ≤ e → result ≡ no_section }
{
    if Railway::SECTION_ENDS <= e {
        return NO_SECTION as u32;
    }
    if MOST_WAYS <= j {
        return NO_SECTION as u32;
    }
    let at = WORDS * (e as usize) + 3 * (j as usize) + i;
    u32::from(ways[at])
}

// The section that a train enters which leaves by the section end with index e, with these points at plus, as bits by point; `NO_SECTION`: none.
// It is the section at the end of the first way that the points suit.
pub fn section_by(ways: &Ways, e: u8, points: u32) -> u8
    ensures found { (r : Railway) → Laid r (is_closed r) ways.now → e < section_ends → result ≡ section_byte (entered r (bit points) (end_at e)) }
    ensures past { section_ends ≤ e → result ≡ no_section }
{
    if Railway::SECTION_ENDS <= e {
        return NO_SECTION;
    }
    // (By three words at a time, no index counted.)
    let first = WORDS * (e as usize);
    let mut at = first;
    while at < first + WORDS {
        let x = ways[at] % 256;
        if x == 255 {
            return NO_SECTION;
        }
        if points & u32::from(ways[at + 1]) == u32::from(ways[at + 2]) {
            return x as u8;
        }
        at += 3;
    }
    NO_SECTION
}
