// Which signal would help: a record and two lent tables. A refused case leaves them as they were. Else the case with
// one signal more, at the first section end that has none, is solved first: where its start has no figure, neither
// has that of the case itself, since one signal more never takes a figure away, and the ends behind it are tried,
// section by section, down before up, to the first that gives the start one. Where it has, the case itself is solved,
// and if that has none the end is tried again, for its tables. So there are at most as many solvings as ends without
// a signal, 96, or three. The tables are left as the last of them filled them.
#![tactic(auto)]

ghost use Rattle.std.specs.Prelude.{◌≡◌, List, ℕ, ◌*◌, ◌≤◌};
ghost use Rattle.std.proofs.Math.Option.{none};
ghost use Rattle.railway.specs.Bounds.{most_sections};
ghost use Rattle.game_tables.specs.Tables.{case_refusal};
ghost use Rattle.advice.specs.Advising.{AdvicePost};
ghost use Rattle.advice_call.specs.Tries.{FirstBare, Untried, TriedTo, TriedPost};

use advice::Help;
use railway::{Railway, Refusal, SectionNo};

// THE ADVICE.
pub fn advise(r: Railway, figures: &mut [u32], settings: &mut [u32]) -> Result<Help, Refusal>
    ensures { AdvicePost r result figures.old settings.old figures.new settings.new }
{
    game_case::open_case(r, figures, settings)?;
    advise_case(r, figures, settings)
}

// An accepted case, with tables that are long enough.
fn advise_case(r: Railway, figures: &mut [u32], settings: &mut [u32]) -> Result<Help, Refusal>
    requires { r.sections ≤ most_sections }
    ensures { case_refusal r figures.old settings.old ≡ none → AdvicePost r result
        figures.old settings.old figures.new settings.new }
{
    let i = first_bare(r);
    if 2 * r.sections <= i || try_end(r, i, figures, settings) {
        return solve_case(r, i, figures, settings);
    }
    try_ends(r, i + 1, figures, settings)
}

// The index of the first end without a signal; the number of ends where every one has a signal.
fn first_bare(r: Railway) -> u8
    requires { r.sections ≤ most_sections }
    ensures { FirstBare r result }
{
    let ends = 2 * r.sections;
    for i in 0..ends {
        if !r.flag_at(i) {
            return i;
        }
    }
    ends
}

// The case itself is solved. If its start has no figure, the ends from this index on are tried; every one before it has a signal.
fn solve_case(r: Railway, i: u8, figures: &mut [u32], settings: &mut [u32]) -> Result<Help, Refusal>
    requires { (r.sections ≤ most_sections) × (i ≤ 2 * r.sections) }
    ensures { (figs sets : List ℕ) → Untried r i figs sets figures.old settings.old → AdvicePost r result figs sets figures.new settings.new }
{
    match solver::solve(r, figures, settings)? {
        Some(_) => Ok(Help::NotNeeded),
        None => try_ends(r, i, figures, settings),
    }
}

// End after end from this index on, until one helps. None before it does, and the start of the case has no figure.
fn try_ends(
    r: Railway,
    first: u8,
    figures: &mut [u32],
    settings: &mut [u32],
) -> Result<Help, Refusal>
    requires { (r.sections ≤ most_sections) × (first ≤ 2 * r.sections) }
    ensures { (figs sets : List ℕ) → TriedTo r first figs sets figures.old settings.old → AdvicePost r result figs sets figures.new settings.new }
{
    for i in first..2 * r.sections {
        if try_end(r, i, figures, settings) {
            return Ok(Help::Signal(SectionNo(i / 2), railway::side_at(i % 2)));
        }
    }
    Ok(Help::NoneHelps)
}

// Whether one signal more, at the end with this index, gives the start a figure; one that stands there already is no more, and nothing is solved.
fn try_end(r: Railway, i: u8, figures: &mut [u32], settings: &mut [u32]) -> bool
    ensures { TriedPost r i result figures.old settings.old figures.new settings.new }
{
    if r.flag_at(i) {
        return false;
    }
    match solver::solve(r.with_signal(railway::end_at(i)), figures, settings) {
        Ok(Some(_)) => true,
        Ok(None) => false,
        Err(_) => false,
    }
}
