// The solver: a record and two lent tables, filled by the rounds of a search, one due round after the other, without a halt.
#![tactic(auto)]

ghost use Rattle.std.specs.Prelude.{◌≡◌, ◌≤◌, length, Ok};
ghost use Rattle.railway.specs.declared.Railway.{Railway};
ghost use Rattle.railway.specs.Record.{is_closed};
ghost use Rattle.game.specs.Placement.{placements, start_code};
ghost use Rattle.game_tables.specs.Tables.{figure_in};
ghost use Rattle.game_tables.specs.Solver.{figure_given, SolverTables, SolverPost};
ghost use Rattle.railway_routes.specs.Routes.{Laid};
ghost use Rattle.railway_compiled.specs.Table.{Compiled};
ghost use Rattle.solver_predecessors.specs.Behind.{Behind};
ghost use Rattle.solver_marks.specs.Marks.{most_codes};

use game_tables::NO_FIGURE;
use railway::{Railway, Refusal};
use railway_compiled::Table;
use railway_routes::Ways;
use solver_marks::MARKS;

// THE SOLVER: both tables of a case and the start's figure, or a refusal and the tables as they were.
pub fn solve(r: Railway, figures: &mut [u32], settings: &mut [u32]) -> Result<Option<u32>, Refusal>
    ensures { SolverPost r result figures.old settings.old figures.new settings.new }
{
    let table = game_case::open_case(r, figures, settings)?;
    let m = game_moves::placements(&table);
    let ways = game_case::case_ways(r);
    let behind = solver_predecessors::ways_behind(r);
    fill(&table, &ways, &behind, figures, settings, m);
    Ok(start_figure(&table, figures))
}

// Round after round, each time on to the next that is due. No figure is larger than the largest weight times the number of placements, so
// that with the round of that number all have come.
fn fill(
    table: &Table,
    ways: &Ways,
    behind: &Ways,
    figures: &mut [u32],
    settings: &mut [u32],
    m: u32,
)
    requires m_le_most_codes { m ≤ most_codes }
    requires m_in_bounds { (m ≤ length figures.old) × (m ≤ length settings.old) }
    ensures { (r : Railway) → Compiled r table.now → Laid r (is_closed r) ways.now
        → Behind r behind.now → m ≡ placements r → SolverTables r figures.old
        settings.old figures.new settings.new }
{
    solver_rounds::begin(table, figures, settings);
    let mut marks = [0u32; MARKS];
    let last = (Railway::MOST_WEIGHT as u32) * m;
    let mut n: u32 = 1;
    while n <= last {
        n = solver_rounds::round(table, ways, behind, figures, settings, &mut marks, n);
    }
}

// The start's figure, as the tables have it.
fn start_figure(table: &Table, figures: &[u32]) -> Option<u32>
    ensures { (r : Railway) → Compiled r table.now → figure_given (Ok result) ≡ figure_in figures.now (start_code r) }
{
    let f = game_tables::entry_at(figures, game_moves::start_code(table), NO_FIGURE);
    if f == NO_FIGURE {
        return None;
    }
    Some(f)
}
