// A case handed in with two lent tables: judged by the rows of the record, then 9, and compiled where none applies. Solver, emitter and checker begin with it; the ways are made
// apart, for calls that ask where moves lead.
#![tactic(auto)]

ghost use Rattle.railway.specs.Record.{is_closed};
ghost use Rattle.railway_routes.specs.Routes.{Laid};
ghost use Rattle.railway_compiled.specs.Table.{compilation};
ghost use Rattle.game_case.specs.Cases.{CasePost};

use railway::{Railway, Refusal};
use railway_compiled::Table;
use railway_routes::Ways;

// The record is tested first, then the length of the tables.
pub fn open_case(r: Railway, figures: &[u32], settings: &[u32]) -> Result<Table, Refusal>
    ensures { CasePost r figures.now settings.now (compilation result) }
{
    let table = railway_compiled::compile(r)?;
    let n = game_moves::placements(&table) as usize;
    if figures.len() < n || settings.len() < n {
        return Err(Refusal::Space);
    }
    Ok(table)
}

// The ways of a record's railway, into sections that are not closed.
pub fn case_ways(r: Railway) -> Ways
    ensures { Laid r (is_closed r) result }
{
    let links = r.links;
    let closed = r.closed;
    railway_routes::ways_of(&links, &closed)
}
