// Looking ahead: whether a round brings anything, told without writing anything. What can gain in a round is one move before its
// frontier, as in `solver_rounds`; the first placement there that would gain settles it. So whoever shows a search round by round knows in time
// whether more is to come.
#![tactic(auto)]

ghost use Rattle.std.specs.Prelude.{◌≡◌, true, ◌↔◌, List, ℕ, suc, ◌≤◌, ◌<◌};
ghost use Rattle.railway.specs.declared.Railway.{Railway};
ghost use Rattle.railway.specs.Record.{is_closed};
ghost use Rattle.game.specs.Placement.{placements};
ghost use Rattle.game.specs.Moves.{code_with};
ghost use Rattle.game_tables.specs.Tables.{no_figure};
ghost use Rattle.game_tables.specs.Rounds.{RoundTables, HasFigure};
ghost use Rattle.railway_routes.specs.Routes.{Laid};
ghost use Rattle.railway_compiled.specs.Table.{Compiled};
ghost use Rattle.game_moves.specs.Steps.{On};
ghost use Rattle.solver_predecessors.specs.Behind.{Behind};
ghost use Rattle.solver_marks.specs.Marks.{stretch_of};
ghost use Rattle.solver_rounds.specs.Visits.{MarkedFor, MoverOf, One, By, Comes, Ahead, Apart};
ghost use Rattle.search_ahead.specs.Bringing.{Looking, Told, Stands, StandsIn};

use game_tables::NO_FIGURE;
use railway_compiled::Table;
use railway_routes::{MOST_WAYS, NO_SECTION, Ways};
use solver_marks::STRETCH;
use solver_rounds::{Codes, Mover};

// What a round is asked about: the railway's table and its ways, for moves and for going back; the figures before it and how many placements there are; and the
// round's number n.
#[derive(Clone, Copy)]
struct Look<'a> {
    table: &'a Table,
    ways: &'a Ways,
    behind: &'a Ways,
    figures: &'a [u32],
    m: u32,
    n: u32,
}

// Whether some placement has figure n, if the tables are those of the round before and the marks are right for round n.
pub fn brings(
    table: &Table,
    ways: &Ways,
    behind: &Ways,
    figures: &[u32],
    marks: &[u32],
    n: u32,
) -> bool
    ensures { (r : Railway) (k : ℕ) (sets : List ℕ) → Compiled r table.now
        → Laid r (is_closed r) ways.now → Behind r behind.now → n ≡ suc k
        → RoundTables r k figures.now sets → MarkedFor r n figures.now marks.now
        → (result ≡ true) ↔ HasFigure r n }
{
    let m = game_moves::placements(table);
    let look = Look {
        table,
        ways,
        behind,
        figures,
        m,
        n,
    };
    for t in 0..railway_compiled::trains_in(table) {
        if look.brings_by(marks, t) {
            return true;
        }
    }
    false
}

// Whether figure n stands in the table, if the marks are right for some round. Where the marks of a stretch say that its figures are
// smaller it is not looked for.
pub fn came(table: &Table, figures: &[u32], marks: &[u32], n: u32) -> bool
    ensures { (r : Railway) (d : ℕ) → Compiled r table.now → n < no_figure
        → MarkedFor r d figures.now marks.now → (result ≡ true) ↔ Stands r n figures.now }
{
    let m = game_moves::placements(table);
    let mut c: u32 = 0;
    while c < m {
        let upto = stretch_end(c, m);
        if n <= solver_marks::most_at(marks, c) {
            if stands_in(figures, n, c, upto) {
                return true;
            }
        }
        c = upto;
    }
    false
}

// Whether an entry of a range of codes is n.
fn stands_in(figures: &[u32], n: u32, from: u32, upto: u32) -> bool
    ensures { StandsIn figures.now n from upto result }
{
    for c in from..upto {
        if game_tables::entry_at(figures, c, NO_FIGURE) == n {
            return true;
        }
    }
    false
}

// Where the codes of c's stretch end, of those below m.
// `solver_rounds` has one of its own: both ask something of c, and no public function asks anything of its caller (docs/ARCHITECTURE.md, "Public functions").
fn stretch_end(c: u32, m: u32) -> u32
    requires { c < m }
    ensures { (c < result) × (result ≤ m) × ((q : ℕ) → c ≤ q → q < result → stretch_of q ≡ stretch_of c) }
{
    let first = c - c % STRETCH;
    if m - first <= STRETCH {
        return m;
    }
    first + STRETCH
}

impl<'a> Look<'a> {
    // Whether a placement gains that is one move before the frontier, by the weight of train t. If a lower train has that weight too, it was
    // asked there.
    fn brings_by(&self, marks: &[u32], t: u8) -> bool
        ensures { (r : Railway) → Looking r self.now
            → MarkedFor r self.now.n self.now.figures.now marks.now → t < r.trains
            → Told r self.now.n self.now.figures.now (Apart r self.now.n self.now.figures.now 0 self.now.m t) result }
    {
        if solver_dues::shares_weight(self.table, t) {
            return false;
        }
        let w = railway_compiled::weight_in(self.table, t);
        let mut c: u32 = 0;
        while c < self.m {
            let upto = stretch_end(c, self.m);
            if solver_marks::due_at(marks, t, c) <= self.n {
                if self.brings_in(w, Codes { from: c, upto }) {
                    return true;
                }
            }
            c = upto;
        }
        false
    }

    // Whether a placement gains that is one move of a train of weight w before one with its code in a range, whose figure makes n with w.
    fn brings_in(&self, w: u8, codes: Codes) -> bool
        ensures { (r : Railway) → Looking r self.now → codes.upto ≤ self.now.m
            → Told r self.now.n self.now.figures.now (Ahead r self.now.n w self.now.figures.now codes.from codes.upto) result }
    {
        if self.n < (w as u32) {
            return false;
        }
        let last = self.n - (w as u32);
        for c in codes.from..codes.upto {
            if game_tables::entry_at(self.figures, c, NO_FIGURE) == last {
                if self.brings_before(w, c) {
                    return true;
                }
            }
        }
        false
    }

    // Whether a placement gains that is one move of a train of weight w before the placement of code c.
    fn brings_before(&self, w: u8, c: u32) -> bool
        ensures { (r : Railway) → Looking r self.now
            → c < placements r → Told r self.now.n self.now.figures.now (Comes r w c r.trains) result }
    {
        let q = game_moves::placement_of(self.table, c);
        let s = railway_compiled::sections_in(self.table);
        for t in 0..railway_compiled::trains_in(self.table) {
            if railway_compiled::weight_in(self.table, t) == w {
                let mover = Mover {
                    placement: q,
                    code: c,
                    train: t,
                    stride: game_moves::power(s, t),
                };
                if self.brings_train(mover) {
                    return true;
                }
            }
        }
        false
    }

    // Whether a placement gains that is one move of a train before a placement.
    fn brings_train(&self, mover: Mover) -> bool
        ensures { (r : Railway) → Looking r self.now
            → MoverOf r self.now.table.now self.now.behind.now mover
            → Told r self.now.n self.now.figures.now (By r mover.code mover.train) result }
    {
        let t = mover.train;
        let x = game_placement::section_at(mover.placement, t);
        let e = solver_predecessors::end_behind(self.table, t, x);
        for j in 0..MOST_WAYS {
            let y = railway_routes::way_to(self.behind, e, j);
            if y == NO_SECTION {
                return false;
            }
            let p = game_moves::code_put(mover.code, mover.stride, x, y);
            if self.brings_put(mover, y, p) {
                return true;
            }
        }
        false
    }

    // Whether the placement gains that has the train on section y and the others as they are; p is its code. One with a figure does not.
    fn brings_put(&self, mover: Mover, y: u8, p: u32) -> bool
        ensures { (r : Railway) → Looking r self.now
            → On r mover.code self.now.table.now mover.placement → mover.train < r.trains → y < r.sections
            → p ≡ code_with r mover.code mover.train y → Told r self.now.n self.now.figures.now (One p) result }
    {
        if self.m <= p {
            return false;
        }
        if game_tables::entry_at(self.figures, p, NO_FIGURE) != NO_FIGURE {
            return false;
        }
        let q = game_moves::put_on(mover.placement, mover.train, y);
        solver_settings::find_in(self.table, self.ways, self.figures, q, p, self.n).is_some()
    }
}
