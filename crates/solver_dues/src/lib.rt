// When a range of codes is due again: a figure there and the weight of a train make the number of a round, in which that train's move to the figure's placement
// can bring something. So a solver passes by the rounds that nothing makes due. The functions promise of every railway whose compiled table they are handed;
// codes past the end of the figures have none.
#![tactic(auto)]

ghost use Rattle.std.specs.Prelude.{◌≡◌, false, ℕ, ◌+◌, ◌≤◌, ◌<◌, length};
ghost use Rattle.laws.specs.Below.{any_below};
ghost use Rattle.railway.specs.declared.Railway.{Railway};
ghost use Rattle.railway.specs.Bounds.{most_weight};
ghost use Rattle.railway.specs.Record.{weight_of};
ghost use Rattle.railway_compiled.specs.Table.{Compiled};
ghost use Rattle.solver_dues.specs.Dues.{same_weight, LeastFrom, DueBy, SoonAfter, NextBy};
ghost use Rattle.game_tables.specs.Tables.{no_figure};
ghost use Rattle.solver_marks.specs.Marks.{due_at};

use game_tables::NO_FIGURE;
use railway::Railway;
use railway_compiled::Table;
use solver_marks::Soon;

// The first rounds that a figure n makes due, by the weight of each train; the largest number where there is no such train, or where a lower one has its weight.
pub fn soon(table: &Table, n: u32) -> Soon
    ensures { (r : Railway) → Compiled r table.now → n + most_weight < no_figure → SoonAfter r n result }
{
    let mut soon = [NO_FIGURE; Railway::TRAINS as usize];
    for t in 0..Railway::TRAINS {
        soon[t as usize] = soon_by(table, n, t);
    }
    soon
}

// That of train t.
fn soon_by(table: &Table, n: u32, t: u8) -> u32
    ensures { (r : Railway) → Compiled r table.now → n + most_weight < no_figure → t < r.trains → any_below (same_weight r t) t ≡ false → result ≡ n + weight_of r t }
{
    if railway_compiled::trains_in(table) <= t {
        return NO_FIGURE;
    }
    if shares_weight(table, t) {
        return NO_FIGURE;
    }
    let w = railway_compiled::weight_in(table, t) as u32;
    n.saturating_add(w)
}

// The first round behind n that is due for the codes below m, by the marks and the weights of all trains, or an earlier one.
pub fn next_round(table: &Table, marks: &[u32], m: u32, n: u32) -> u32
    ensures { (n < no_figure → n < result) × ((r : Railway) → Compiled r table.now → NextBy r marks.now m n r.trains result) }
{
    let mut e: u32 = NO_FIGURE;
    for t in 0..railway_compiled::trains_in(table) {
        e = e.min(next_by(table, marks, m, n, t));
    }
    e
}

// By the weight of train t alone, unless a lower train has it too.
fn next_by(table: &Table, marks: &[u32], m: u32, n: u32, t: u8) -> u32
    ensures { (n < no_figure → n < result)
        × ((r : Railway) → Compiled r table.now → any_below (same_weight r t) t ≡ false → (q i : ℕ) → q < m
        → n < i → due_at marks.now t q ≤ i → result ≤ i) }
{
    if shares_weight(table, t) {
        return NO_FIGURE;
    }
    solver_marks::next_due(marks, t, m, n)
}

// Whether a lower train has the weight of train t.
pub fn shares_weight(table: &Table, t: u8) -> bool
    ensures { (r : Railway) → Compiled r table.now → result ≡ any_below (same_weight r t) t }
{
    let w = railway_compiled::weight_in(table, t);
    for u in 0..t {
        if railway_compiled::weight_in(table, u) == w {
            return true;
        }
    }
    false
}

// The first round behind n that the figures of a range, those that are `most` at most, make due by the weight of train t, or an earlier one. Where no figure is
// large enough for a round behind n, none is due; with weight 1 it is the very next; only else are the figures looked through.
pub fn due_behind(
    table: &Table,
    figures: &[u32],
    most: u32,
    n: u32,
    from: u32,
    upto: u32,
    t: u8,
) -> u32
    ensures { (r : Railway) → Compiled r table.now → DueBy figures.now most n (weight_of r t) from upto result }
{
    let w = railway_compiled::weight_in(table, t) as u32;
    let lo = least_ahead(n, w);
    if most < lo {
        return NO_FIGURE;
    }
    if w <= 1 {
        return n.saturating_add(1);
    }
    least_from(figures, lo, from, upto).saturating_add(w)
}

// The least figure that makes a round behind n with this weight.
fn least_ahead(n: u32, w: u32) -> u32
    ensures { (j : ℕ) → n < j + w → result ≤ j }
{
    if n < w {
        return 0;
    }
    (n - w).saturating_add(1)
}

// The least entry of a range of codes that is `lo` at least; the number for none, if there is no such.
fn least_from(figures: &[u32], lo: u32, from: u32, upto: u32) -> u32
    ensures { LeastFrom figures.now lo from upto result }
{
    let end = upto as usize;
    if figures.len() < end {
        return 0;
    }
    least_within(figures, lo, from, upto)
}

// The same, the range being within the figures. Each entry is looked at, and none ends the loop, so that several can be at once.
fn least_within(figures: &[u32], lo: u32, from: u32, upto: u32) -> u32
    requires { upto ≤ length figures.now }
    ensures { LeastFrom figures.now lo from upto result }
{
    let mut least: u32 = NO_FIGURE;
    for q in from..upto {
        least = least.min(from_on(lo, figures[q as usize]));
    }
    least
}

// A number if it is `lo` at least, else the number for none.
fn from_on(lo: u32, f: u32) -> u32
    ensures { lo ≤ f → result ≤ f }
{
    if f < lo { NO_FIGURE } else { f }
}
