// The thinning of a plan, after its last line, in the tables that the checker has entered it into. The call makes the test of the plan itself: what the test refuses is refused with the
// same number, and nothing has changed then. Else one pass over the setting table leaves, at each listed placement that is not home, nobody open where some train is free, and else the
// lowest train alone that may move. The checker is only read, and may be handed more lines.
#![tactic(auto)]

ghost use Rattle.std.specs.Prelude.{◌≡◌, ℕ, ◌^◌, ◌+◌, ◌≤◌, ◌<◌, length};
ghost use Rattle.laws.specs.Below.{lowest};
ghost use Rattle.railway.specs.declared.Railway.{Railway};
ghost use Rattle.railway.specs.Bounds.{most_trains};
ghost use Rattle.game.specs.Game.{may};
ghost use Rattle.game.specs.Placement.{placements};
ghost use Rattle.game.specs.Moves.{game_of};
ghost use Rattle.game_tables.specs.Entries.{train_bits, setting_at};
ghost use Rattle.railway_compiled.specs.Table.{Compiled};
ghost use Rattle.game_moves.specs.Steps.{On};
ghost use Rattle.plan_checker.specs.Answers.{checking};
ghost use Rattle.thin.specs.Thinning.{some_free, stays, open_bit, open_only, thinned_entry, thinned_table, ThinPost};

use game_placement::{FIRST_TRAIN, Placement};
use game_tables::NO_FIGURE;
use plan_checker::Checker;
use railway::{Railway, Refusal};
use railway_compiled::Table;

// THE CALL. Figures are only read; settings are written where the plan passes.
pub fn thin(
    checker: &Checker,
    r: Railway,
    figures: &[u32],
    settings: &mut [u32],
) -> Result<(), Refusal>
    ensures { ThinPost r (checking checker.now figures.now settings.old) result (checking checker.now figures.now settings.new) }
{
    checker.test(r, figures, settings)?;
    let table = railway_compiled::compile(r)?;
    thin_table(&table, figures, settings);
    Ok(())
}

// One pass over the codes. A table that is too short is written as far as it goes.
fn thin_table(table: &Table, figures: &[u32], settings: &mut [u32])
    ensures { (r : Railway) → Compiled r table.now → placements r ≤ length settings.old
        → settings.new ≡ thinned_table r figures.now settings.old }
{
    for p in 0..game_moves::placements(table) {
        let v = entry_at(table, figures, settings, p);
        plan_checker::put(settings, p, v);
    }
}

// The entry of a placement, thinned where the placement is listed and not home.
fn entry_at(table: &Table, figures: &[u32], settings: &[u32], p: u32) -> u32
    ensures { (r : Railway) → Compiled r table.now → result ≡ thinned_entry r figures.now settings.now p }
{
    let v = game_tables::entry_at(settings, p, 0);
    let n = game_tables::entry_at(figures, p, NO_FIGURE);
    if n == NO_FIGURE {
        return v;
    }
    let q = game_moves::placement_of(table, p);
    if game_moves::home_in(table, q) {
        return v;
    }
    lean_entry(table, q, v)
}

// An entry thinned: the points as they lie, and the train that stays open.
fn lean_entry(table: &Table, q: Placement, v: u32) -> u32
    ensures { (r : Railway) (p : ℕ) → On r p table.now q → result ≡ open_only v (stays r p (setting_at r p v)) }
{
    let points = v % FIRST_TRAIN;
    if some_free(table, q) {
        return points;
    }
    let open = lowest_bit(table, q, v);
    points + open
}

// Some train may move without a signal.
fn some_free(table: &Table, q: Placement) -> bool
    ensures { (r : Railway) (p : ℕ) → On r p table.now q → result ≡ some_free r p }
{
    for t in 0..railway_compiled::trains_in(table) {
        if game_moves::free_in(table, q, t) {
            return true;
        }
    }
    false
}

// The bit of the lowest train that may move under an entry; 0 if none may.
fn lowest_bit(table: &Table, q: Placement, v: u32) -> u32
    ensures { (result ≤ 524288) × ((r : Railway) (p : ℕ) → On r p table.now q → result ≡ open_bit (lowest (may (game_of r) p (setting_at r p v)) r.trains)) }
{
    for t in 0..railway_compiled::trains_in(table) {
        if game_moves::may_in(table, q, v, t) {
            return train_bit(t);
        }
    }
    0
}

// The bit of a train; 0 for one that no railway can have.
fn train_bit(t: u8) -> u32
    ensures { (result ≤ 524288) × (t < most_trains → result ≡ 2 ^ (train_bits + t)) }
{
    if Railway::TRAINS <= t {
        return 0;
    }
    FIRST_TRAIN * (1u32 << t)
}
