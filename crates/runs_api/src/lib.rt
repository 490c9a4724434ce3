// Shortest runs in a call for programs in other languages: a case text, and two square tables that are lent. The static
// library of crate runs_api_c exports it. It reads and judges the text, and answers the number of the refusal,
// or 0; refused, it leaves both tables as they were.
#![tactic(auto)]

ghost use Rattle.std.specs.Prelude.{◌≡◌};
ghost use Rattle.std.proofs.Math.Option.{none};
ghost use Rattle.railway.specs.Rows.{record_refusal};
ghost use Rattle.runs_api.specs.Exported.{RailwayTables, TextTables};

use railway::{Railway, Side};
use runs_tables::Runs;

// THE TABLES of both headings: rows by the section that runs begin on, in each a byte for every section; sections count from 0.
pub fn runs_case(text: &[u8], up: &mut Runs, down: &mut Runs) -> u8
    ensures { TextTables text.now up.old down.old result up.new down.new }
{
    match case_reader::read_case(text) {
        Err(f) => f.number(),
        Ok(r) => both_tables(r, up, down),
    }
}

fn both_tables(r: Railway, up: &mut Runs, down: &mut Runs) -> u8
    requires { record_refusal r ≡ none }
    ensures { RailwayTables r result up.new down.new }
{
    let blank = [[0u8; Railway::SECTIONS as usize]; Railway::SECTIONS as usize];
    *up = runs_tables::run_table(r, Side::Up, blank).unwrap_or(blank);
    *down = runs_tables::run_table(r, Side::Down, blank).unwrap_or(blank);
    0
}
