// The first setting that keeps a figure at a placement, or nothing: what one step of a solver asks. It looks at the ways of the trains that may move, so
// that its time goes with those and not with the settings. Each train is looked at by itself first, and mostly that decides; only where several free trains
// ask for different points are their ways combined.
#![tactic(auto)]

ghost use Rattle.std.specs.Prelude.{◌≡◌, true, false, ◌&&◌, ℕ, ◌≤◌, ◌<◌, eqb};
ghost use Rattle.std.proofs.Math.Option.{some};
ghost use Rattle.laws.specs.Below.{any_below, all_below};
ghost use Rattle.railway.specs.declared.Railway.{Railway};
ghost use Rattle.railway.specs.Bounds.{most_trains};
ghost use Rattle.railway.specs.Ends.{end_index};
ghost use Rattle.railway.specs.Record.{is_closed};
ghost use Rattle.game.specs.Placement.{code_on};
ghost use Rattle.game.specs.Setting.{heads_for, free};
ghost use Rattle.game_tables.specs.Tables.{figure_in};
ghost use Rattle.game_tables.specs.Find.{try_open, find, ends_good};
ghost use Rattle.railway_routes.specs.Routes.{Way, nth, Laid};
ghost use Rattle.railway_compiled.specs.Table.{Compiled};
ghost use Rattle.game_placement.specs.ByValue.{section_in};
ghost use Rattle.game_moves.specs.Steps.{On};
ghost use Rattle.solver_settings.specs.Answers.{entry_found, first_keeping};
ghost use Rattle.solver_settings.specs.Search.{Looks, Asked, no_bits, free_good, Smallest, Goes, ways_of, OnWay, Seen, Placed, From, ByWay};

use game_placement::{FIRST_TRAIN, Placement};
use railway::Railway;
use railway_compiled::Table;
use railway_routes::{NO_SECTION, Ways};

// What stands for no point bits: points have the bits below.
const NO_BITS: u32 = FIRST_TRAIN;

// What is looked for: a setting that keeps this figure at this placement of so many trains, which is told by value and by its code.
#[derive(Clone, Copy)]
struct Aim {
    placement: Placement,
    code: u32,
    trains: u8,
    figure: u32,
}

// Ways of the trains so far, combined: the points that matter, and those of them that have to lie at plus. With them the bits that are to be undercut.
#[derive(Clone, Copy)]
struct Combined {
    care: u32,
    want: u32,
    best: u32,
}

// A way of the table: from the section end with this index, by its number, and the section that it leads to.
#[derive(Clone, Copy)]
struct WayAt {
    end: u8,
    number: u8,
    to: u8,
}

// THE FIRST SETTING that keeps figure n at a placement, in the plan's order: no signal open, else that of the lowest train
// that works; and of the points that work then the smallest bits.
pub fn find_setting(table: &Table, ways: &Ways, figures: &[u32], p: u32, n: u32) -> Option<u32>
    ensures { (r : Railway) → Compiled r table.now → Laid r (is_closed r) ways.now → entry_found result ≡ first_keeping r (figure_in figures.now) p n }
{
    let q = game_moves::placement_of(table, p);
    find_in(table, ways, figures, q, game_moves::code_of(table, q), n)
}

// The first setting for a placement by value and its code.
pub fn find_in(
    table: &Table,
    ways: &Ways,
    figures: &[u32],
    q: Placement,
    c: u32,
    n: u32,
) -> Option<u32>
    ensures { (r : Railway) (p : ℕ) → On r p table.now q → Laid r (is_closed r) ways.now → c ≡ code_on r (section_in q)
        → entry_found result ≡ first_keeping r (figure_in figures.now) p n }
{
    let k = railway_compiled::trains_in(table);
    if Railway::TRAINS < k {
        return None;
    }
    if game_moves::lost_in(table, q) {
        return None;
    }
    let aim = Aim {
        placement: q,
        code: c,
        trains: k,
        figure: n,
    };
    look(table, ways, figures, aim)
}

// EACH TRAIN BY ITSELF. Entering section y ends the move of train t in a figure that is smaller than the one to be kept by at least its weight. The figure is
// looked at first: seldom is there a train to collide with where it is small enough.
fn ends_good(table: &Table, figures: &[u32], aim: Aim, t: u8, y: u8) -> bool
    ensures { (r : Railway) (p : ℕ) → On r p table.now aim.placement → aim.code ≡ code_on r (section_in aim.placement)
        → t < r.trains → y < r.sections → result ≡ ends_good r (figure_in figures.now) p aim.figure t y }
{
    let stride = game_moves::power(railway_compiled::sections_in(table), t);
    let after = game_moves::code_put(
        aim.code,
        stride,
        game_placement::section_at(aim.placement, t),
        y,
    );
    let entry = game_tables::entry_at(figures, after, game_tables::NO_FIGURE);
    if game_tables::is_within(entry, railway_compiled::weight_in(table, t), aim.figure) {
        return !game_moves::other_in(aim.placement, t, y, railway_compiled::trains_in(table));
    }
    false
}

// The smallest point bits under which train t has a good way; `NO_BITS`: it has none. They are what that way wants, so ways that want more than has been
// found are passed over.
fn least_way(table: &Table, ways: &Ways, figures: &[u32], aim: Aim, t: u8) -> u32
    ensures { (r : Railway) (p : ℕ) → Looks r p table.now ways.now aim.placement aim.code → t < r.trains
        → Smallest (Goes r (figure_in figures.now) p aim.figure t) r.points no_bits result }
{
    let e = game_moves::front_in(table, aim.placement, t);
    let mut best = NO_BITS;
    for j in 0..railway_routes::MOST_WAYS {
        let to = railway_routes::way_to(ways, e, j);
        if to == NO_SECTION {
            return best;
        }
        let want = railway_routes::way_want(ways, e, j);
        best = by_way(table, figures, aim, t, to, want, best);
        if best == 0 {
            return best;
        }
    }
    best
}

// The smallest bits below `best` that suit a way of train t to section `to`, which wants these bits, if it is a good one; else `best`.
fn by_way(table: &Table, figures: &[u32], aim: Aim, t: u8, to: u8, want: u32, best: u32) -> u32
    ensures { (r : Railway) (p j : ℕ) (w : Way) → On r p table.now aim.placement → aim.code ≡ code_on r (section_in aim.placement)
        → t < r.trains → nth (ways_of r p t) j ≡ some w → to ≡ w.to → want ≡ w.want
        → Smallest (OnWay r (figure_in figures.now) p aim.figure t w) r.points best result }
{
    if best <= want {
        return best;
    }
    if ends_good(table, figures, aim, t, to) {
        want
    } else {
        best
    }
}

// Looks at each free train. If one has no good way, nothing is found, whatever is opened: opening a signal only adds moves.
fn look(table: &Table, ways: &Ways, figures: &[u32], aim: Aim) -> Option<u32>
    requires { aim.trains ≤ most_trains }
    ensures { (r : Railway) (p : ℕ) → Asked r p table.now ways.now aim.placement aim.code aim.trains
        → entry_found result ≡ find r (figure_in figures.now) p aim.figure }
{
    let mut count: u8 = 0;
    let mut all: u32 = 0;
    let mut most: u32 = 0;
    for t in 0..aim.trains {
        if game_moves::free_in(table, aim.placement, t) {
            let w = least_way(table, ways, figures, aim, t);
            if NO_BITS <= w {
                return None;
            }
            count += 1;
            all |= w;
            most = most.max(w);
        }
    }
    settle(table, ways, figures, aim, count, all, most)
}

// What follows from that. No train free: one is opened. One free, or all content with every point at minus: the union of what they want. If that is no more than
// one of them wants, and good for all, it is the smallest too. Else their ways are combined.
fn settle(
    table: &Table,
    ways: &Ways,
    figures: &[u32],
    aim: Aim,
    count: u8,
    all: u32,
    most: u32,
) -> Option<u32>
    requires { aim.trains ≤ most_trains }
    ensures { (r : Railway) (p : ℕ) → Asked r p table.now ways.now aim.placement aim.code aim.trains
        → Seen r (figure_in figures.now) p aim.figure r.trains count all most
        → entry_found result ≡ find r (figure_in figures.now) p aim.figure }
{
    if count == 0 {
        return open_one(table, ways, figures, aim);
    }
    if count == 1 {
        return Some(all);
    }
    if all == 0 {
        return Some(0);
    }
    if union_serves(table, ways, figures, aim, all, most) {
        return Some(all);
    }
    combine(table, ways, figures, aim)
}

// The union is no more than one train wants, and good for each that is free.
fn union_serves(table: &Table, ways: &Ways, figures: &[u32], aim: Aim, all: u32, most: u32) -> bool
    ensures { (r : Railway) (p : ℕ) → Asked r p table.now ways.now aim.placement aim.code aim.trains
        → result ≡ (eqb all most && all_below (free_good r (figure_in figures.now) p aim.figure all) r.trains) }
{
    if all == most {
        all_good(table, ways, figures, aim, all)
    } else {
        false
    }
}

// Each free train has a good way with the points by these bits.
fn all_good(table: &Table, ways: &Ways, figures: &[u32], aim: Aim, bits: u32) -> bool
    ensures { (r : Railway) (p : ℕ) → Asked r p table.now ways.now aim.placement aim.code aim.trains
        → result ≡ all_below (free_good r (figure_in figures.now) p aim.figure bits) r.trains }
{
    (0..aim.trains).all(|t| free_good(table, ways, figures, aim, bits, t))
}

// Train t is not free, or it has one.
fn free_good(table: &Table, ways: &Ways, figures: &[u32], aim: Aim, bits: u32, t: u8) -> bool
    ensures { (r : Railway) (p : ℕ) → Looks r p table.now ways.now aim.placement aim.code → t < r.trains
        → result ≡ free_good r (figure_in figures.now) p aim.figure bits t }
{
    if game_moves::free_in(table, aim.placement, t) {
        let y = game_moves::leads_to(table, ways, aim.placement, bits, t);
        if y == NO_SECTION {
            return false;
        }
        ends_good(table, figures, aim, t, y)
    } else {
        true
    }
}

// ALL FREE TRAINS TOGETHER: the smallest bits under which each has a good way.
fn combine(table: &Table, ways: &Ways, figures: &[u32], aim: Aim) -> Option<u32>
    ensures { (r : Railway) (p : ℕ) → Asked r p table.now ways.now aim.placement aim.code aim.trains
        → any_below (free r p) r.trains ≡ true → entry_found result ≡ find r (figure_in figures.now) p aim.figure }
{
    let nothing = Combined {
        care: 0,
        want: 0,
        best: NO_BITS,
    };
    let bits = over_train(table, ways, figures, aim, 0, nothing);
    if bits < NO_BITS { Some(bits) } else { None }
}

// The smallest bits below `best` that have the points of `care` as wanted, and under which each free train from t on has a good way; else `best`. They are
// the union of what such ways want, so no more is looked at once that is not below `best`.
#[cycle(over_train_over_way_over_ways)]
fn over_train(table: &Table, ways: &Ways, figures: &[u32], aim: Aim, t: u8, sum: Combined) -> u32
    ensures { (r : Railway) (p : ℕ) → Asked r p table.now ways.now aim.placement aim.code aim.trains
        → Placed r sum.care sum.want → Smallest (From r (figure_in figures.now) p aim.figure t sum.care sum.want) r.points sum.best result }
{
    if sum.best <= sum.want {
        return sum.best;
    }
    if aim.trains <= t {
        return sum.want;
    }
    if game_moves::free_in(table, aim.placement, t) {
        over_ways(table, ways, figures, aim, t, sum)
    } else {
        over_train(table, ways, figures, aim, t + 1, sum)
    }
}

// The same with train t, which is free: way after way.
#[cycle(over_train_over_way_over_ways)]
fn over_ways(table: &Table, ways: &Ways, figures: &[u32], aim: Aim, t: u8, sum: Combined) -> u32
    requires { t < aim.trains }
    ensures { (r : Railway) (p : ℕ) → Asked r p table.now ways.now aim.placement aim.code aim.trains
        → Placed r sum.care sum.want → free r p t ≡ true → Smallest (From r (figure_in figures.now) p aim.figure t sum.care sum.want) r.points sum.best result }
{
    let e = game_moves::front_in(table, aim.placement, t);
    let mut least = sum.best;
    for j in 0..railway_routes::MOST_WAYS {
        let to = railway_routes::way_to(ways, e, j);
        if to == NO_SECTION {
            return least;
        }
        let way = WayAt {
            end: e,
            number: j,
            to: to,
        };
        let below = Combined {
            care: sum.care,
            want: sum.want,
            best: least,
        };
        least = over_way(table, ways, figures, aim, t, way, below);
    }
    least
}

// The same with train t on this way.
#[cycle(over_train_over_way_over_ways)]
fn over_way(
    table: &Table,
    ways: &Ways,
    figures: &[u32],
    aim: Aim,
    t: u8,
    way: WayAt,
    sum: Combined,
) -> u32
    requires { t < aim.trains }
    ensures { (r : Railway) (p : ℕ) (w : Way) → Asked r p table.now ways.now aim.placement aim.code aim.trains
        → Placed r sum.care sum.want → way.end ≡ end_index (heads_for r p t) → nth (ways_of r p t) way.number ≡ some w → way.to ≡ w.to
        → Smallest (ByWay r (figure_in figures.now) p aim.figure t sum.care sum.want w) r.points sum.best result }
{
    let cares = railway_routes::way_care(ways, way.end, way.number);
    let wants = railway_routes::way_want(ways, way.end, way.number);
    let both = sum.want | wants;
    if both & sum.care != sum.want {
        return sum.best;
    }
    if both & cares != wants {
        return sum.best;
    }
    if ends_good(table, figures, aim, t, way.to) {
        let more = Combined {
            care: sum.care | cares,
            want: both,
            best: sum.best,
        };
        over_train(table, ways, figures, aim, t + 1, more)
    } else {
        sum.best
    }
}

// NO TRAIN FREE: the lowest train whose signal alone keeps the figure.
fn open_one(table: &Table, ways: &Ways, figures: &[u32], aim: Aim) -> Option<u32>
    requires { aim.trains ≤ most_trains }
    ensures { (r : Railway) (p : ℕ) → Asked r p table.now ways.now aim.placement aim.code aim.trains
        → any_below (free r p) r.trains ≡ false → entry_found result ≡ find r (figure_in figures.now) p aim.figure }
{
    for u in 0..aim.trains {
        if let Some(v) = open_train(table, ways, figures, aim, u) {
            return Some(v);
        }
    }
    None
}

// Train u open, if it is held, and the smallest bits under which it has a good way; a parked train has nothing to open.
fn open_train(table: &Table, ways: &Ways, figures: &[u32], aim: Aim, u: u8) -> Option<u32>
    requires { u < most_trains }
    ensures { (r : Railway) (p : ℕ) → Asked r p table.now ways.now aim.placement aim.code r.trains
        → any_below (free r p) r.trains ≡ false → u < r.trains → entry_found result ≡ try_open r (figure_in figures.now) p aim.figure (eqb u) }
{
    if game_moves::held_in(table, aim.placement, u) {
        let bits = least_way(table, ways, figures, aim, u);
        if bits < NO_BITS {
            Some(bits + FIRST_TRAIN * (1u32 << u))
        } else {
            None
        }
    } else {
        None
    }
}
