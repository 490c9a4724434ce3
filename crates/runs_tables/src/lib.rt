// Shortest runs, by heading: `run_table` takes a record and a square table, tests the record, and hands the table back
// with the fewest sections that are entered from each section to each other, over any points. The sections ahead of a
// section are at the end of its ways (crate railway_routes). A row is filled level by level: what is entered first from a
// section at n is at n + 1.
#![tactic(auto)]

ghost use Rattle.std.specs.Prelude.{◌≡◌, ℕ, suc, ◌<◌};
ghost use Rattle.railway.specs.declared.Railway.{Railway};
ghost use Rattle.railway.specs.Bounds.{most_sections, section_ends};
ghost use Rattle.railway.specs.Ends.{end_at};
ghost use Rattle.railway.specs.Record.{is_closed};
ghost use Rattle.railway_routes.specs.Routes.{routes_from, most_ways, Laid};
ghost use Rattle.runs.specs.Runs.{no_run, RunTable, replied, RunPost};
ghost use Rattle.runs_tables.specs.Filling.{Lent, RowTo, LevelTo, IsRow, first_of, Reached};

use railway::{End, Railway, Refusal, SectionNo, Side};
use railway_routes::{MOST_WAYS, Ways};

// What stands for no run.
pub const NO_RUN: u8 = 255;

// A row: an entry for each section that a railway can have.
const COLUMNS: usize = Railway::SECTIONS as usize;

type Row = [u8; COLUMNS];

// The table of a heading, in rows by the section that runs begin on.
pub type Runs = [[u8; COLUMNS]; COLUMNS];

// The rows of a table, as they stand in an answer.
pub type Rows = Runs;

// THE TABLE of a heading. Whoever is refused has the table that was handed in, as it came.
pub fn run_table(r: Railway, heading: Side, table: Runs) -> Result<Runs, Refusal>
    ensures { RunPost r heading table (replied table result) }
{
    railway_acceptance::test_record(r)?;
    let ways = game_case::case_ways(r);
    Ok(fill(&ways, r.sections, heading, table))
}

// The square table of an answer's rows. An answer has it as such, so that it is what is handed in.
pub fn table_in(rows: Rows) -> Runs
    ensures { result ≡ rows }
{
    rows
}

// All rows, of every railway with these ways and so many sections.
fn fill(ways: &Ways, sections: u8, heading: Side, table: Runs) -> Runs
    ensures { (r : Railway) → Lent r ways.now sections → RunTable r heading result }
{
    let mut all = table;
    for x in 0..Railway::SECTIONS {
        all[x as usize] = row_from(ways, sections, heading, x);
    }
    all
}

// The row of section x; from one that is not there no run begins.
fn row_from(ways: &Ways, sections: u8, heading: Side, x: u8) -> Row
    ensures { (r : Railway) → Lent r ways.now sections → IsRow r heading x result }
{
    let mut row = [NO_RUN; COLUMNS];
    if sections <= x || Railway::SECTIONS <= x {
        return row;
    }
    row[x as usize] = 0;
    levels(ways, sections, heading, &mut row);
    row
}

// All levels: no shortest run is longer than there are sections.
fn levels(ways: &Ways, sections: u8, heading: Side, row: &mut Row)
    ensures { (r : Railway) (x : ℕ) → Lent r ways.now sections → RowTo r heading x 0 row.old → RowTo r heading x sections row.new }
{
    for n in 0..sections {
        level(ways, heading, row, n);
    }
}

// One level more: what is entered from the sections at n.
fn level(ways: &Ways, heading: Side, row: &mut Row, n: u8)
    requires { n < no_run }
    ensures { (r : Railway) (x s : ℕ) → Lent r ways.now s → n < s → RowTo r heading x n row.old → RowTo r heading x (suc n) row.new }
{
    for y in 0..Railway::SECTIONS {
        leave(ways, heading, row, n, y);
    }
}

// What is entered from section y, if it is at n.
fn leave(ways: &Ways, heading: Side, row: &mut Row, n: u8, y: u8)
    requires n_lt_no_run { n < no_run }
    requires y_lt_most_sections { y < most_sections }
    ensures { (r : Railway) (x s : ℕ) → Lent r ways.now s → n < s → LevelTo r heading x n y row.old → LevelTo r heading x n (suc y) row.new }
{
    let at = y as usize;
    if row[at] == n {
        let e = railway::index_of(End::Section(SectionNo(y), heading));
        enter(ways, e, row, n + 1);
    }
}

// The sections at the end of the ways from section end e, of those that have no entry yet: each gets n.
fn enter(ways: &Ways, e: u8, row: &mut Row, n: u8)
    ensures { (r : Railway) → Laid r (is_closed r) ways.now → e < section_ends → Reached (routes_from r (is_closed r) (end_at e)) most_ways n row.old row.new }
{
    for j in 0..MOST_WAYS {
        let z = railway_routes::way_to(ways, e, j);
        if Railway::SECTIONS <= z {
            return;
        }
        let at = z as usize;
        row[at] = first_of(row[at], n);
    }
}

// An entry that is there stays.
fn first_of(entry: u8, n: u8) -> u8
    ensures { result ≡ first_of entry n }
{
    if entry == NO_RUN { n } else { entry }
}
