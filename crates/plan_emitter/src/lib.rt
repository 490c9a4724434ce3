// The emitter: a line of the plan a call, or as many as have room, from two tables into a lent buffer. A line is made in a buffer of its own and copied
// if the lent one has room for it; every other answer leaves the lent one as it was, and bytes past what is written stay.
#![tactic(auto)]

ghost use Rattle.std.specs.Prelude.{◌≡◌, true, suc, ◌+◌, ◌<◌, leb};
ghost use Rattle.std.specs.Option.{MatchOption};
ghost use Rattle.std.proofs.Math.Option.{none, some};
ghost use Rattle.laws.specs.Below.{lowest};
ghost use Rattle.railway.specs.declared.Railway.{Railway};
ghost use Rattle.game.specs.Placement.{start_code};
ghost use Rattle.game_tables.specs.Tables.{no_figure, figure_in, case_refusal};
ghost use Rattle.plan.specs.declared.PlanPlace.TheVariants.{From};
ghost use Rattle.plan.specs.Lines.{start_line, placement_line, spell, most_line_bytes};
ghost use Rattle.plan.specs.Text.{has_figure, line_for};
ghost use Rattle.plan.specs.Emitter.{figure_from, next_code, due_for, leaves};
ghost use Rattle.plan.specs.Several.{Run, emit_lines, EmitLinesPost};
ghost use Rattle.plan.specs.Steps.{line_written, due_written, emitted, put_so, put_at, Planned, Underway, ran_whole};
ghost use Rattle.plan.specs.Promises.{EmitterPost};
ghost use Rattle.railway_compiled.specs.Table.{Compiled};

use game_tables::NO_FIGURE;
use plan::{Emission, PlanPlace};
use plan_lines::MOST_LINE_BYTES;
use railway::{Railway, Refusal};
use railway_compiled::Table;
use text::append;

// Any record, tables, place and buffer: a line and the place behind it, or the end; that there is no plan; or the first row of the case, or 9 for the buffer, that applies.
pub fn emit_line(
    r: Railway,
    figures: &[u32],
    settings: &[u32],
    place: PlanPlace,
    out: &mut [u8],
) -> Result<Emission, Refusal>
    ensures { EmitterPost r figures.now settings.now place out.old result out.new }
{
    let table = game_case::open_case(r, figures, settings)?;
    emit_due(&table, figures, settings, place, out)
}

// As many whole lines as have room in the buffer, one behind the other, and the place behind them: what as many calls for a line each would write there.
// The case is judged once. Where not even one line is written, the answer is that of the call for one. (One function with the step as a closure would be no
// shorter: each of the two is the call for the case and the call for the step.)
pub fn emit_lines(
    r: Railway,
    figures: &[u32],
    settings: &[u32],
    place: PlanPlace,
    out: &mut [u8],
) -> Result<Emission, Refusal>
    ensures { EmitLinesPost r figures.now settings.now place out.old result out.new }
{
    let table = game_case::open_case(r, figures, settings)?;
    due_lines(&table, figures, settings, place, out)
}

// What is due at a place, and all lines behind it that have room.
fn due_lines(
    table: &Table,
    figures: &[u32],
    settings: &[u32],
    place: PlanPlace,
    out: &mut [u8],
) -> Result<Emission, Refusal>
    ensures { (r : Railway) → Compiled r table.now → case_refusal r figures.now settings.now ≡ none
        → leaves result out.new ≡ emit_lines r figures.now settings.now place out.old }
{
    let first = emit_due(table, figures, settings, place, out)?;
    let Emission::Line(n, next) = first else {
        return Ok(first);
    };
    let PlanPlace::From(c) = next else {
        return Ok(first);
    };
    more_lines(table, figures, settings, c, n, out)
}

// The lines from code `from` on that have room behind the cursor.
fn more_lines(
    table: &Table,
    figures: &[u32],
    settings: &[u32],
    from: u32,
    behind: usize,
    out: &mut [u8],
) -> Result<Emission, Refusal>
    ensures { (r : Railway) (whole : Run) → Compiled r table.now → Planned r figures.now settings.now
        → Underway r figures.now settings.now whole (From from) behind out.old → leaves result out.new ≡ ran_whole whole }
{
    let total = game_moves::placements(table);
    let mut c = from;
    let mut at = behind;
    loop {
        let Some(p) = next_code(figures, c, total) else {
            return Ok(Emission::Line(at, PlanPlace::From(c)));
        };
        let next = put_placement(table, figures, settings, p, out, at);
        if next == at {
            return Ok(Emission::Line(at, PlanPlace::From(c)));
        }
        at = next;
        c = p + 1;
    }
}

// The line of a placement that has a figure, at a cursor, if it has room there: the cursor behind it. Where any line has room it is written in place.
fn put_placement(
    table: &Table,
    figures: &[u32],
    settings: &[u32],
    p: u32,
    out: &mut [u8],
    at: usize,
) -> usize
    ensures { (r : Railway) → Compiled r table.now → has_figure figures.now p ≡ true
        → put_so out.new result ≡ put_at (spell (placement_line (line_for r figures.now settings.now p))) out.old at }
{
    let n = game_tables::entry_at(figures, p, NO_FIGURE);
    let v = game_tables::entry_at(settings, p, 0);
    let q = game_moves::placement_of(table, p);
    let k = railway_compiled::trains_in(table);
    let m = railway_compiled::points_in(table);
    if has_room(out.len(), at) {
        return plan_lines::placement_line(out, at, k, m, q, n, v);
    }
    let mut text: [u8; MOST_LINE_BYTES] = [0; MOST_LINE_BYTES];
    let len = plan_lines::placement_line(&mut text, 0, k, m, q, n, v);
    put_behind(out, at, &text[..len])
}

// A buffer of this length has room for any line behind a cursor.
fn has_room(long: usize, at: usize) -> bool
    ensures { result ≡ leb (at + most_line_bytes) long }
{
    if at <= long {
        MOST_LINE_BYTES <= long - at
    } else {
        false
    }
}

// A line at a cursor, if it has room there.
fn put_behind(out: &mut [u8], at: usize, line: &[u8]) -> usize
    ensures { put_so out.new result ≡ put_at line.now out.old at }
{
    if out.len() < at {
        return at;
    }
    if out.len() - at < line.len() {
        return at;
    }
    append::bytes(out, at, line)
}

// What is due at a place, in a case that is not refused.
fn emit_due(
    table: &Table,
    figures: &[u32],
    settings: &[u32],
    place: PlanPlace,
    out: &mut [u8],
) -> Result<Emission, Refusal>
    ensures { (r : Railway) → Compiled r table.now
        → leaves result out.new ≡ emitted r figures.now settings.now place out.old none (figure_in figures.now (start_code r)) }
{
    let n = game_tables::entry_at(figures, game_moves::start_code(table), NO_FIGURE);
    if n == NO_FIGURE {
        return Ok(Emission::NoPlan);
    }
    match place {
        PlanPlace::Top => emit_start(n, out),
        PlanPlace::From(c) => emit_from(table, figures, settings, c, out),
    }
}

// The first line.
fn emit_start(n: u32, out: &mut [u8]) -> Result<Emission, Refusal>
    ensures { leaves result out.new ≡ line_written (spell (start_line n)) (From 0) out.old }
{
    let mut text: [u8; MOST_LINE_BYTES] = [0; MOST_LINE_BYTES];
    let len = plan_lines::start_line(&mut text, 0, n);
    put_line(out, &text[..len], PlanPlace::From(0))
}

// The line of the next placement with a figure, from code c on.
fn emit_from(
    table: &Table,
    figures: &[u32],
    settings: &[u32],
    c: u32,
    out: &mut [u8],
) -> Result<Emission, Refusal>
    ensures { (r : Railway) → Compiled r table.now
        → leaves result out.new ≡ due_written out.old (due_for r figures.now settings.now (next_code r figures.now c)) }
{
    match next_code(figures, c, game_moves::placements(table)) {
        Some(p) => emit_placement(table, figures, settings, p, out),
        None => Ok(Emission::End),
    }
}

// The line of a placement that has a figure.
fn emit_placement(
    table: &Table,
    figures: &[u32],
    settings: &[u32],
    p: u32,
    out: &mut [u8],
) -> Result<Emission, Refusal>
    requires { p < no_figure }
    ensures { (r : Railway) → Compiled r table.now → has_figure figures.now p ≡ true
        → leaves result out.new ≡ line_written (spell (placement_line (line_for r figures.now settings.now p))) (From (suc p)) out.old }
{
    let n = put_placement(table, figures, settings, p, out, 0);
    if n == 0 {
        return Err(Refusal::Space);
    }
    Ok(Emission::Line(n, PlanPlace::From(p + 1)))
}

// A line into the lent buffer, if it has room for it.
fn put_line(out: &mut [u8], line: &[u8], next: PlanPlace) -> Result<Emission, Refusal>
    ensures { leaves result out.new ≡ line_written line.now next out.old }
{
    if out.len() < line.len() {
        return Err(Refusal::Space);
    }
    append::bytes(out, 0, line);
    Ok(Emission::Line(line.len(), next))
}

// The lowest code from c on whose placement has a figure, of so many.
fn next_code(figures: &[u32], c: u32, total: u32) -> Option<u32>
    ensures { MatchOption result (lowest (figure_from figures.now c) total ≡ none)
        (λ p. (p < total) × (lowest (figure_from figures.now c) total ≡ some p)) }
{
    for p in c..total {
        if has_figure(figures, p) {
            return Some(p);
        }
    }
    None
}

fn has_figure(figures: &[u32], p: u32) -> bool
    ensures { result ≡ has_figure figures.now p }
{
    game_tables::entry_at(figures, p, NO_FIGURE) != NO_FIGURE
}
