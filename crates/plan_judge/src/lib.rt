// The test of a plan on two tables, of a railway that is compiled: the start's figure first, then placement after placement. All functions are
// total: a code past a table has no figure, and its setting is zero. What they promise, they promise of every railway whose table and
// ways are handed in.
#![tactic(auto)]

ghost use Rattle.std.specs.Prelude.{◌≡◌, ℕ, ◌<◌};
ghost use Rattle.laws.specs.Below.{all_below, any_below};
ghost use Rattle.railway.specs.declared.Railway.{Railway};
ghost use Rattle.railway.specs.Record.{is_closed};
ghost use Rattle.game.specs.Game.{may};
ghost use Rattle.game.specs.Local.{goes_within, keeps_test};
ghost use Rattle.game.specs.Placement.{placements};
ghost use Rattle.game.specs.Moves.{game_of};
ghost use Rattle.game_tables.specs.Entries.{setting_at};
ghost use Rattle.game_tables.specs.Tables.{figure_in};
ghost use Rattle.plan.specs.Test.{by_tables};
ghost use Rattle.plan.specs.Computed.{listed_passes, placement_passes, test_holds};
ghost use Rattle.railway_routes.specs.Routes.{Laid};
ghost use Rattle.railway_compiled.specs.Table.{Compiled};
ghost use Rattle.game_moves.specs.Steps.{On};
ghost use Rattle.plan_judge.specs.Steps.{signalled_in};

use game_moves::Fault;
use game_placement::{Placement, TRAIN_BITS};
use game_tables::NO_FIGURE;
use railway_compiled::Table;
use railway_routes::Ways;

// THE TEST, m being the first line's figure: the start is listed with it, and every listed placement is as it must be.
pub fn test_holds(table: &Table, ways: &Ways, figures: &[u32], settings: &[u32], m: u32) -> bool
    ensures { (r : Railway) → Compiled r table.now → Laid r (is_closed r) ways.now → result ≡ test_holds r m (by_tables figures.now settings.now) }
{
    let n = game_tables::entry_at(figures, game_moves::start_code(table), NO_FIGURE);
    if n == NO_FIGURE {
        return false;
    }
    if n == m {
        all_pass(table, ways, figures, settings)
    } else {
        false
    }
}

// Every placement.
fn all_pass(table: &Table, ways: &Ways, figures: &[u32], settings: &[u32]) -> bool
    ensures { (r : Railway) → Compiled r table.now → Laid r (is_closed r) ways.now
        → result ≡ all_below (placement_passes r (by_tables figures.now settings.now)) (placements r) }
{
    for p in 0..game_moves::placements(table) {
        if !placement_passes(table, ways, figures, settings, p) {
            return false;
        }
    }
    true
}

// One placement: it is not listed, or it is as listed placements must be.
fn placement_passes(table: &Table, ways: &Ways, figures: &[u32], settings: &[u32], p: u32) -> bool
    ensures { (r : Railway) → Compiled r table.now → Laid r (is_closed r) ways.now → result ≡ placement_passes r (by_tables figures.now settings.now) p }
{
    let n = game_tables::entry_at(figures, p, NO_FIGURE);
    if n == NO_FIGURE {
        return true;
    }
    listed_passes(table, ways, figures, settings, p, n)
}

// A placement that is listed with figure n: not lost; its open trains have signals; and it is home, or its setting keeps the figure.
fn listed_passes(
    table: &Table,
    ways: &Ways,
    figures: &[u32],
    settings: &[u32],
    p: u32,
    n: u32,
) -> bool
    ensures { (r : Railway) → Compiled r table.now → Laid r (is_closed r) ways.now → result ≡ listed_passes r (by_tables figures.now settings.now) p n }
{
    let q = game_moves::placement_of(table, p);
    if game_moves::lost_in(table, q) {
        return false;
    }
    let v = game_tables::entry_at(settings, p, 0);
    if opens_signalled(table, q, v) {
        if game_moves::home_in(table, q) {
            return true;
        }
        keeps(table, ways, figures, q, v, n)
    } else {
        false
    }
}

// Every train that the entry opens has a signal before it.
fn opens_signalled(table: &Table, q: Placement, v: u32) -> bool
    ensures { (r : Railway) (p : ℕ) → On r p table.now q → result ≡ all_below (signalled_in r p v) r.trains }
{
    for t in 0..railway_compiled::trains_in(table) {
        if !train_signalled(table, q, v, t) {
            return false;
        }
    }
    true
}

fn train_signalled(table: &Table, q: Placement, v: u32, t: u8) -> bool
    ensures { (r : Railway) (p : ℕ) → On r p table.now q → t < r.trains → result ≡ signalled_in r p v t }
{
    if game_placement::bit_at(v, TRAIN_BITS + (t as u32)) {
        game_moves::held_in(table, q, t)
    } else {
        true
    }
}

// Entry v keeps figure n: somebody may move under it, and whoever may comes to a listed placement with a figure smaller than n by its weight at least.
fn keeps(table: &Table, ways: &Ways, figures: &[u32], q: Placement, v: u32, n: u32) -> bool
    ensures { (r : Railway) (p : ℕ) → On r p table.now q → Laid r (is_closed r) ways.now
        → result ≡ keeps_test (game_of r) (figure_in figures.now) p (setting_at r p v) n }
{
    if some_may(table, q, v) {
        all_within(table, ways, figures, q, v, n)
    } else {
        false
    }
}

fn some_may(table: &Table, q: Placement, v: u32) -> bool
    ensures { (r : Railway) (p : ℕ) → On r p table.now q → result ≡ any_below (may (game_of r) p (setting_at r p v)) r.trains }
{
    for t in 0..railway_compiled::trains_in(table) {
        if game_moves::may_in(table, q, v, t) {
            return true;
        }
    }
    false
}

fn all_within(table: &Table, ways: &Ways, figures: &[u32], q: Placement, v: u32, n: u32) -> bool
    ensures { (r : Railway) (p : ℕ) → On r p table.now q → Laid r (is_closed r) ways.now
        → result ≡ all_below (goes_within (game_of r) (figure_in figures.now) p (setting_at r p v) n) r.trains }
{
    for t in 0..railway_compiled::trains_in(table) {
        if !goes_within(table, ways, figures, q, v, n, t) {
            return false;
        }
    }
    true
}

// The train may not move, or its move ends in a figure smaller than n by its weight at least.
fn goes_within(
    table: &Table,
    ways: &Ways,
    figures: &[u32],
    q: Placement,
    v: u32,
    n: u32,
    t: u8,
) -> bool
    ensures { (r : Railway) (p : ℕ) → On r p table.now q → Laid r (is_closed r) ways.now
        → result ≡ goes_within (game_of r) (figure_in figures.now) p (setting_at r p v) n t }
{
    match game_moves::move_in(table, ways, q, v, t) {
        Err(Fault::NotAllowed) => true,
        Err(Fault::Derails) => false,
        Err(Fault::Collides) => false,
        Ok(next) => {
            let weight = railway_compiled::weight_in(table, t);
            game_tables::is_within(game_tables::entry_at(figures, next, NO_FIGURE), weight, n)
        }
    }
}
