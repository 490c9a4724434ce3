// A railway compiled into a table of bytes, for loops that ask the same things of it many times: no record is copied there.
// `compile` takes a record, tests it, and fills the table; the others read the table alone, and are total. What they
// promise, they promise of every accepted railway whose table it is; of bytes that are no railway's table no definition says
// anything, and they only read them. Where the ends lead to is the table of crate `railway_routes`.
#![tactic(auto)]

ghost use Rattle.std.specs.Prelude.{◌≡◌, ℕ, ◌+◌, ◌<◌, ◌≤◌};
ghost use Rattle.railway.specs.declared.Railway.{Railway};
ghost use Rattle.railway.specs.Bounds.{most_trains};
ghost use Rattle.railway.specs.Record.{train_of, weight_of};
ghost use Rattle.railway.specs.Lent.{SignalsOf};
ghost use Rattle.railway_compiled.specs.Table.{stand_bytes, table_bytes, stand_byte, stand_on, held_on, free_on};
ghost use Rattle.railway_compiled.specs.Table.{count_byte, roster_byte, compiled_byte, Compiled, CompilePost, compilation};
ghost use Rattle.railway_compiled.specs.Table.{Counted, Rostered, FilledBefore};

use railway::{Railway, Refusal, Side, Signals, Train};

const SECTIONS: usize = Railway::SECTIONS as usize;

const TRAINS: usize = Railway::TRAINS as usize;

// Where the three counts stand, behind a byte for each train and section, and where the trains' own bytes do, behind those.
const COUNTS: usize = SECTIONS * TRAINS;

const ROSTER: usize = COUNTS + 3;

// Bytes of a table: four more for each train.
pub const TABLE: usize = ROSTER + 4 * TRAINS;

// A railway's table. Of every function that takes one, the promise is about the railways whose table it is. (Bytes, not a struct with arrays: definition `Compiled` states it byte
// by byte. So `count_byte` and `roster_byte` go by the number of a byte.)
pub type Table = [u8; TABLE];

// How a train stands on a section: free, held by a signal, or parked, for it is its destination. The table has the variant's number.
#[derive(Clone, Copy)]
enum Stand {
    Free,
    Held,
    Parked,
}

// A record is tested, and where it is accepted compiled.
pub fn compile(r: Railway) -> Result<Table, Refusal>
    ensures { CompilePost r (compilation result) }
{
    railway_acceptance::test_record(r)?;
    let mut table = [0u8; TABLE];
    let signals = r.signals;
    let trains = trains_of(r);
    for t in 0..Railway::TRAINS {
        fill_stands(&mut table, &signals, trains[t as usize], t);
    }
    for i in COUNTS..TABLE {
        table[i] = tail_byte(r.sections, r.points, r.trains, trains, i);
    }
    Ok(table)
}

// All trains that a railway can have, one after the other.
fn trains_of(r: Railway) -> [Train; TRAINS]
    ensures { Rostered r result }
{
    [r.train_of(0), r.train_of(1), r.train_of(2), r.train_of(3)]
}

// How one train stands on each section, behind those of the trains before it: of every record with these signals in which it is train t.
fn fill_stands(table: &mut Table, signals: &Signals, train: Train, t: u8)
    requires { t < most_trains }
    ensures { (r : Railway) → SignalsOf r signals.now → train ≡ train_of r t → FilledBefore r t table.old → FilledBefore r (t + 1) table.new }
{
    let side = railway::side_index(train.heading);
    let home = train.destination.0;
    let first = SECTIONS * (t as usize);
    for x in 0..Railway::SECTIONS {
        table[first + x as usize] = stand_byte(
            x == home,
            railway::signal_in(signals, 2 * x + side),
        );
    }
}

// How a train stands that is parked or not, with a signal ahead or none.
fn stand_byte(parked: bool, signal: bool) -> u8
    ensures { result ≡ stand_byte parked signal }
{
    let stand = match (parked, signal) {
        (true, _) => Stand::Parked,
        (false, true) => Stand::Held,
        (false, false) => Stand::Free,
    };
    stand as u8
}

// The bytes behind those: the counts, then the trains' own.
fn tail_byte(s: u8, p: u8, k: u8, trains: [Train; TRAINS], i: usize) -> u8
    requires stand_bytes_le_i { stand_bytes ≤ i }
    requires i_lt_table_bytes { i < table_bytes }
    ensures { (r : Railway) → Counted r s p k → Rostered r trains → result ≡ compiled_byte r i }
{
    if i < ROSTER {
        return count_byte(s, p, k, i - COUNTS);
    }
    let j = i - ROSTER;
    roster_byte(trains[j % TRAINS], j / TRAINS)
}

#[tactic(auto, unfolding(crate::specs::Table::count_byte))]
fn count_byte(s: u8, p: u8, k: u8, i: usize) -> u8
    ensures { (r : Railway) → Counted r s p k → result ≡ count_byte r i }
{
    match i {
        0 => s,
        1 => p,
        _ => k,
    }
}

#[tactic(auto, unfolding(crate::specs::Table::roster_byte, railway::specs::Record::weight_of))]
fn roster_byte(train: Train, i: usize) -> u8
    ensures { (r : Railway) (t : ℕ) → train ≡ train_of r t → result ≡ roster_byte r i t }
{
    match i {
        0 => railway::side_index(train.heading),
        1 => train.start.0,
        2 => train.destination.0,
        _ => train.weight,
    }
}

// READING THE TABLE. How many sections there are.
pub fn sections_in(table: &Table) -> u8
    ensures { (r : Railway) → Compiled r table.now → result ≡ r.sections }
{
    table[COUNTS]
}

// How many points there are.
pub fn points_in(table: &Table) -> u8
    ensures { (r : Railway) → Compiled r table.now → result ≡ r.points }
{
    table[COUNTS + 1]
}

// How many trains there are.
pub fn trains_in(table: &Table) -> u8
    ensures { (r : Railway) → Compiled r table.now → result ≡ r.trains }
{
    table[COUNTS + 2]
}

// Which way a train heads.
#[tactic(auto, unfolding(crate::specs::Table::roster_byte))]
pub fn heading_in(table: &Table, t: u8) -> Side
    ensures { (r : Railway) → Compiled r table.now → result ≡ (train_of r t).heading }
{
    railway::side_at(roster_in(table, 0, t))
}

// The section where a train starts.
#[tactic(auto, unfolding(crate::specs::Table::roster_byte))]
pub fn start_in(table: &Table, t: u8) -> u8
    ensures { (r : Railway) → Compiled r table.now → result ≡ (train_of r t).start.0 }
{
    roster_in(table, 1, t)
}

// The section that a train is bound for.
#[tactic(auto, unfolding(crate::specs::Table::roster_byte))]
pub fn destination_in(table: &Table, t: u8) -> u8
    ensures { (r : Railway) → Compiled r table.now → result ≡ (train_of r t).destination.0 }
{
    roster_in(table, 2, t)
}

// What a move of a train costs.
#[tactic(auto, unfolding(crate::specs::Table::roster_byte))]
pub fn weight_in(table: &Table, t: u8) -> u8
    ensures { (r : Railway) → Compiled r table.now → result ≡ weight_of r t }
{
    roster_in(table, 3, t)
}

// One of a train's four bytes; past the table those of no train.
fn roster_in(table: &Table, i: u8, t: u8) -> u8
    requires { i < 4 }
    ensures { (r : Railway) → Compiled r table.now → result ≡ roster_byte r i t }
{
    if t < Railway::TRAINS {
        return table[ROSTER + TRAINS * (i as usize) + (t as usize)];
    }
    match i {
        0 => 1,
        3 => Railway::LEAST_WEIGHT,
        _ => 0,
    }
}

// Whether a train is held on a section: a signal stands at the end that it heads for, and it is not parked there.
pub fn held_on(table: &Table, t: u8, x: u8) -> bool
    ensures { (r : Railway) → Compiled r table.now → result ≡ held_on r t x }
{
    stand_in(table, t, x) == Stand::Held as u8
}

// Whether a train is free on a section: no signal stands at the end that it heads for, and it is not parked there.
pub fn free_on(table: &Table, t: u8, x: u8) -> bool
    ensures { (r : Railway) → Compiled r table.now → result ≡ free_on r t x }
{
    stand_in(table, t, x) == Stand::Free as u8
}

// How a train stands on a section. Where no railway can have the train or the section, nothing moves.
fn stand_in(table: &Table, t: u8, x: u8) -> u8
    ensures { (r : Railway) → Compiled r table.now → result ≡ stand_on r t x }
{
    if Railway::TRAINS <= t || Railway::SECTIONS <= x {
        return Stand::Parked as u8;
    }
    table[SECTIONS * (t as usize) + (x as usize)]
}
