// Moves on a compiled railway: codes and placements, who may move, and what a move ends in. All functions are total. What they
// promise, they promise of every accepted railway whose table is handed in (crate `railway_compiled`), and beside it that of its ways where points matter
// (crate `railway_routes`). A placement goes by its code, or by value with the section of each train.
#![tactic(auto)]

ghost use Rattle.std.specs.Prelude.{◌≡◌, cond, ℕ, ◌+◌, ◌*◌, ◌/◌, ◌%◌, ◌≤◌, ◌<◌, ltb};
ghost use Rattle.std.proofs.Math.Option.{some};
ghost use Rattle.laws.specs.Below.{any_below};
ghost use Rattle.laws.specs.Bits.{bit};
ghost use Rattle.railway.specs.declared.Railway.{Railway};
ghost use Rattle.railway.specs.Ends.{end_index};
ghost use Rattle.railway.specs.Record.{is_closed};
ghost use Rattle.railway.specs.Passing.{entered};
ghost use Rattle.game.specs.Game.{may};
ghost use Rattle.game.specs.Placement.{placements, start_code, at_home, shared, code_on, names_none};
ghost use Rattle.game.specs.Setting.{heads_for, opens_for};
ghost use Rattle.game.specs.Moves.{move_of, game_of};
ghost use Rattle.game_tables.specs.Entries.{opens_in, opens_end, setting_at};
ghost use Rattle.railway_routes.specs.Routes.{section_byte, Laid};
ghost use Rattle.railway_compiled.specs.Table.{Compiled};
ghost use Rattle.game_placement.specs.ByValue.{section_in};
ghost use Rattle.game_moves.specs.Answers.{home_code, ended, move_under};
ghost use Rattle.game_moves.specs.Steps.{stride_of, code_put, On, moved_to, put_in, held_in, free_in, other_in};

use game_placement::{FIRST_TRAIN, Placement, TRAIN_BITS, bit_at, section_at};
use railway::{End, Railway, SectionNo};
use railway_compiled::Table;
use railway_routes::Ways;
use std::array;

// What stands for no code: no railway has so many placements.
pub const NO_CODE: u32 = 4294967295;

// Why a move leads to no placement: it is not allowed, or it loses.
#[derive(Clone, Copy, PartialEq, Eq)]
pub enum Fault {
    NotAllowed,
    Derails,
    Collides,
}

// PLACEMENTS. How many there are: s to the power k.
pub fn placements(table: &Table) -> u32
    ensures { (r : Railway) → Compiled r table.now → result ≡ placements r }
{
    power(
        railway_compiled::sections_in(table),
        railway_compiled::trains_in(table),
    )
}

// s to the power k, where k is at most 4: the stride of a train with k before it. It is multiplied up without a branch.
pub fn power(s: u8, k: u8) -> u32
    ensures { result ≡ stride_of s k }
{
    let one = times_if(1, s, 0 < k);
    let two = times_if(one, s, 1 < k);
    let three = times_if(two, s, 2 < k);
    times_if(three, s, 3 < k)
}

// A stride times s, or as it is.
fn times_if(w: u32, s: u8, more: bool) -> u32
    requires { w ≤ 255 * 255 * 255 }
    ensures { result ≡ cond more (w * s) w }
{
    if more { w * (s as u32) } else { w }
}

// The placement of a code: section after section, by dividing.
pub fn placement_of(table: &Table, p: u32) -> Placement
    ensures { (r : Railway) → Compiled r table.now → On r p table.now result }
{
    let s = railway_compiled::sections_in(table);
    let k = railway_compiled::trains_in(table);
    let b = without_first(s, p);
    let c = without_first(s, b);
    let d = without_first(s, c);
    // Written out: by `array::from_fn`, here and in `put_on`, the solver takes a tenth longer.
    let sections = [
        first_section(s, k, p, 0),
        first_section(s, k, b, 1),
        first_section(s, k, c, 2),
        first_section(s, k, d, 3),
    ];
    Placement { sections }
}

// What is left of a code without its first train.
fn without_first(s: u8, p: u32) -> u32
    ensures { 0 < s → result ≡ p / s }
{
    if s == 0 {
        return 0;
    }
    p / (s as u32)
}

// The first section of what is left of a code without its first t trains; 0 for a train that is not there.
fn first_section(s: u8, k: u8, p: u32, t: u8) -> u8
    ensures { 0 < s → result ≡ cond (ltb t k) (p % s) 0 }
{
    if s == 0 {
        return 0;
    }
    if k <= t {
        return 0;
    }
    (p % (s as u32)) as u8
}

// The code of a placement.
pub fn code_of(table: &Table, q: Placement) -> u32
    ensures { (r : Railway) → Compiled r table.now → result ≡ code_on r (section_in q) }
{
    code_with(table, q, Railway::TRAINS, 0)
}

// The code of a placement with train t put on section x.
fn code_with(table: &Table, q: Placement, t: u8, x: u8) -> u32
    ensures { (r : Railway) → Compiled r table.now → result ≡ code_on r (moved_to q t x) }
{
    let s = railway_compiled::sections_in(table);
    let k = railway_compiled::trains_in(table);
    let [a, b, c, d]: [u8; 4] = array::from_fn(|u| moved_to(q, k, t, x, u as u8));
    code_of_sections(s, a, b, c, d)
}

// The section of train u with train t put on section x; 0 for a train that is not there.
fn moved_to(q: Placement, k: u8, t: u8, x: u8, u: u8) -> u8
    ensures { result ≡ cond (ltb u k) (moved_to q t x u) 0 }
{
    if k <= u {
        return 0;
    }
    if u == t {
        return x;
    }
    section_at(q, u)
}

// The code of the sections of four trains, the first train's first, among s sections.
fn code_of_sections(s: u8, a: u8, b: u8, c: u8, d: u8) -> u32
    ensures { result ≡ a + s * (b + s * (c + s * d)) }
{
    let m = s as u32;
    (a as u32) + m * ((b as u32) + m * ((c as u32) + m * (d as u32)))
}

// The placement with train t put on section x; as it was, if there is no place for the train. Section after section, and none is written in place: reading
// what was just written byte by byte would wait for it.
pub fn put_on(q: Placement, t: u8, x: u8) -> Placement
    ensures { (u : ℕ) → section_in result u ≡ put_in q t x u }
{
    // Written out: by `array::from_fn`, here and in `placement_of`, the solver takes a tenth longer.
    let sections = [
        moved_to(q, Railway::TRAINS, t, x, 0),
        moved_to(q, Railway::TRAINS, t, x, 1),
        moved_to(q, Railway::TRAINS, t, x, 2),
        moved_to(q, Railway::TRAINS, t, x, 3),
    ];
    Placement { sections }
}

// The code of a placement whose code is c, with a train of this stride put from section x on section y; `NO_CODE`, if that is none.
pub fn code_put(c: u32, stride: u32, x: u8, y: u8) -> u32
    ensures { result ≡ code_put c stride x y }
{
    let m = stride as u64;
    let more = (c as u64) + (y as u64) * m;
    let less = (x as u64) * m;
    if more < less {
        return NO_CODE;
    }
    let p = more - less;
    if p < (NO_CODE as u64) {
        p as u32
    } else {
        NO_CODE
    }
}

// The start's code: each train on its start.
pub fn start_code(table: &Table) -> u32
    ensures { (r : Railway) → Compiled r table.now → result ≡ start_code r }
{
    let sections = array::from_fn(|t| railway_compiled::start_in(table, t as u8));
    code_of(table, Placement { sections })
}

// Home's code: each train on its destination.
pub fn home_code(table: &Table) -> u32
    ensures { (r : Railway) → Compiled r table.now → result ≡ home_code r }
{
    let sections = array::from_fn(|t| railway_compiled::destination_in(table, t as u8));
    code_of(table, Placement { sections })
}

// The placement names a section that is not there. What stands for trains past the last is not looked at.
pub fn names_none(table: &Table, q: Placement) -> bool
    ensures { (r : Railway) → Compiled r table.now → result ≡ names_none r (section_in q) }
{
    let s = railway_compiled::sections_in(table);
    let k = railway_compiled::trains_in(table);
    (0..k).any(|t| s <= section_at(q, t))
}

// Another train than t, of the first n, stands on section x.
pub fn other_in(q: Placement, t: u8, x: u8, n: u8) -> bool
    ensures { result ≡ any_below (other_in q t x) n }
{
    (0..n).any(|u| is_other(q, t, x, u))
}

// Train u is another than t and stands on section x.
fn is_other(q: Placement, t: u8, x: u8, u: u8) -> bool
    ensures { result ≡ other_in q t x u }
{
    if u == t {
        return false;
    }
    section_at(q, u) == x
}

// Lost: two trains share a section.
pub fn is_lost(table: &Table, p: u32) -> bool
    ensures { (r : Railway) → Compiled r table.now → result ≡ shared r p }
{
    lost_in(table, placement_of(table, p))
}

// Two trains of a placement by value share a section.
pub fn lost_in(table: &Table, q: Placement) -> bool
    ensures { (r : Railway) (p : ℕ) → On r p table.now q → result ≡ shared r p }
{
    let k = railway_compiled::trains_in(table);
    (0..k).any(|t| other_in(q, t, section_at(q, t), t))
}

// Home: each train stands on its destination.
pub fn is_home(table: &Table, p: u32) -> bool
    ensures { (r : Railway) → Compiled r table.now → result ≡ at_home r p }
{
    home_in(table, placement_of(table, p))
}

// Each train of a placement by value stands on its destination.
pub fn home_in(table: &Table, q: Placement) -> bool
    ensures { (r : Railway) (p : ℕ) → On r p table.now q → result ≡ at_home r p }
{
    let k = railway_compiled::trains_in(table);
    (0..k).all(|t| section_at(q, t) == railway_compiled::destination_in(table, t))
}

// MOVES. The end that a train heads for.
pub fn heads_for(table: &Table, p: u32, t: u8) -> End
    ensures { (r : Railway) → Compiled r table.now → result ≡ heads_for r p t }
{
    end_in(table, placement_of(table, p), t)
}

// The end that a train heads for in a placement by value.
fn end_in(table: &Table, q: Placement, t: u8) -> End
    ensures { (r : Railway) (p : ℕ) → On r p table.now q → result ≡ heads_for r p t }
{
    let x = section_at(q, t);
    let h = railway_compiled::heading_in(table, t);
    End::Section(SectionNo(x), h)
}

// The index of that end.
pub fn front_in(table: &Table, q: Placement, t: u8) -> u8
    ensures { (r : Railway) (p : ℕ) → On r p table.now q → result ≡ end_index (heads_for r p t) }
{
    railway::index_of(end_in(table, q, t))
}

// Whether a train is there and may move under an entry of the setting table.
pub fn may_move(table: &Table, p: u32, v: u32, t: u8) -> bool
    ensures { (r : Railway) → Compiled r table.now → result ≡ may (game_of r) p (setting_at r p v) t }
{
    may_in(table, placement_of(table, p), v, t)
}

// Whether a train of a placement by value is there and may move.
pub fn may_in(table: &Table, q: Placement, v: u32, t: u8) -> bool
    ensures { (r : Railway) (p : ℕ) → On r p table.now q → result ≡ may (game_of r) p (setting_at r p v) t }
{
    if railway_compiled::trains_in(table) <= t {
        return false;
    }
    if free_in(table, q, t) {
        return true;
    }
    if held_in(table, q, t) {
        open_for(table, q, v, t)
    } else {
        false
    }
}

// The train is free: no signal stands at the end that it heads for, and it is not parked. A train that no railway can have is not.
pub fn free_in(table: &Table, q: Placement, t: u8) -> bool
    ensures { (r : Railway) (p : ℕ) → On r p table.now q → result ≡ free_in r p t }
{
    railway_compiled::free_on(table, t, section_at(q, t))
}

// The train is held: a signal stands at the end that it heads for, and it is not parked. A train that no railway can have is not.
pub fn held_in(table: &Table, q: Placement, t: u8) -> bool
    ensures { (r : Railway) (p : ℕ) → On r p table.now q → result ≡ held_in r p t }
{
    railway_compiled::held_on(table, t, section_at(q, t))
}

// The signal at the end that a train heads for is open by entry v. Its own bit says so at once, and where no train is open it is not; only where others
// are it matters which ends they head for.
fn open_for(table: &Table, q: Placement, v: u32, t: u8) -> bool
    ensures { (r : Railway) (p : ℕ) → On r p table.now q → t < r.trains → result ≡ opens_for r p (setting_at r p v) t }
{
    if bit_at(v, TRAIN_BITS + (t as u32)) {
        return true;
    }
    if v < FIRST_TRAIN {
        return false;
    }
    open_in(table, q, v, front_in(table, q, t))
}

// The signal at the section end of this index is open by entry v.
fn open_in(table: &Table, q: Placement, v: u32, i: u8) -> bool
    ensures { (r : Railway) (p : ℕ) → On r p table.now q → result ≡ (setting_at r p v).is_open i }
{
    let k = railway_compiled::trains_in(table);
    (0..k).any(|u| opens_end(table, q, v, i, u))
}

// Entry v opens train u, and train u heads for the section end of index i.
fn opens_end(table: &Table, q: Placement, v: u32, i: u8, u: u8) -> bool
    ensures { (r : Railway) (p : ℕ) → On r p table.now q → result ≡ opens_end r p (opens_in v) i u }
{
    if bit_at(v, TRAIN_BITS + (u as u32)) {
        i == front_in(table, q, u)
    } else {
        false
    }
}

// What moving a train ends in under an entry of the setting table.
pub fn move_of(table: &Table, ways: &Ways, p: u32, v: u32, t: u8) -> Result<u32, Fault>
    ensures { (r : Railway) → Compiled r table.now → Laid r (is_closed r) ways.now → ended result ≡ move_under r p v t }
{
    move_in(table, ways, placement_of(table, p), v, t)
}

// What moving a train of a placement by value ends in.
pub fn move_in(table: &Table, ways: &Ways, q: Placement, v: u32, t: u8) -> Result<u32, Fault>
    ensures { (r : Railway) (p : ℕ) → On r p table.now q → Laid r (is_closed r) ways.now → ended result ≡ move_under r p v t }
{
    if may_in(table, q, v, t) {
        outcome_of(table, ways, q, v, t)
    } else {
        Err(Fault::NotAllowed)
    }
}

// The section that a train enters, the points lying by the bits of v; `NO_SECTION`: it derails, or comes to a closed one.
pub fn leads_to(table: &Table, ways: &Ways, q: Placement, v: u32, t: u8) -> u8
    ensures { (r : Railway) (p : ℕ) → On r p table.now q → Laid r (is_closed r) ways.now → result ≡ section_byte (entered r (bit v) (heads_for r p t)) }
{
    railway_routes::section_by(ways, front_in(table, q, t), v)
}

// What a move ends in, the points lying by entry v.
fn outcome_of(table: &Table, ways: &Ways, q: Placement, v: u32, t: u8) -> Result<u32, Fault>
    ensures { (r : Railway) (p : ℕ) → On r p table.now q → Laid r (is_closed r) ways.now → t < r.trains → ended result ≡ some (move_of r p (setting_at r p v) t) }
{
    let x = leads_to(table, ways, q, v, t);
    if x == railway_routes::NO_SECTION {
        return Err(Fault::Derails);
    }
    if other_in(q, t, x, railway_compiled::trains_in(table)) {
        return Err(Fault::Collides);
    }
    Ok(code_with(table, q, t, x))
}
