// The rounds of a search: two lent tables, filled in place round by round. In round n a placement without a figure gets n if some setting
// leads from it, by whatever move, to figures that are smaller by at least the mover's weight. The search for figure n reads only figures
// below n, so entries made in the same round do not disturb it. A placement that gains figure n has a move of some train to a figure that
// makes n with the train's weight, so a round visits only what is one such move before those: they are its frontier. Marks say for each
// stretch of codes and each weight which round is the next that the figures there make due, so that a round passes by the stretches where
// the frontier has none, and whoever runs rounds can pass by those that are due nowhere. The functions promise what they do for every
// accepted railway whose compiled table and ways they are handed: those into sections that are not closed, for moves, and those to all
// sections, for going back. `begin` and `round` ask for nothing: where a table is too short they do nothing, and promise nothing.
#![tactic(auto)]

ghost use Rattle.std.specs.Prelude.{◌≡◌, false, ℕ, suc, ◌+◌, ◌%◌, ◌≤◌, ◌<◌, length, get_or};
ghost use Rattle.std.proofs.Math.Option.{none};
ghost use Rattle.std.specs.Option.{MatchOption};
ghost use Rattle.railway.specs.declared.Railway.{Railway};
ghost use Rattle.railway.specs.Record.{is_closed, weight_of};
ghost use Rattle.railway.specs.Rows.{record_refusal};
ghost use Rattle.game.specs.Placement.{placements};
ghost use Rattle.game.specs.Moves.{code_with};
ghost use Rattle.game_tables.specs.Tables.{no_figure, figure_in};
ghost use Rattle.game_tables.specs.Rounds.{first_figure, RoundTables, most_figure};
ghost use Rattle.railway_routes.specs.Routes.{Laid};
ghost use Rattle.railway_compiled.specs.Table.{Compiled};
ghost use Rattle.game_moves.specs.Answers.{home_code};
ghost use Rattle.game_moves.specs.Steps.{stride_of, On};
ghost use Rattle.solver_predecessors.specs.Behind.{Behind};
ghost use Rattle.solver_rounds.specs.Rounds.{After, RoundPost};
ghost use Rattle.solver_marks.specs.Marks.{stretch_length};
ghost use Rattle.solver_rounds.specs.Visits.{Turned, First, MarkedFor, Round, MoverOf, Visited, Stretch, Passed, NextWith, Waits};
ghost use Rattle.solver_rounds.specs.Visits.{One, By, ByWeight, Comes, Ahead, Apart};

use game_placement::Placement;
use game_tables::NO_FIGURE;
use railway::Railway;
use railway_compiled::Table;
use railway_routes::{MOST_WAYS, NO_SECTION, Ways};
use solver_marks::{STRETCH, Soon};

// How many codes are looked at together.
const BLOCK: u32 = 16;

// The last round that there can be: no figure is larger.
pub const LAST_ROUND: u32 = (Railway::MOST_WEIGHT as u32)
    * SECTIONS
    * SECTIONS
    * SECTIONS
    * SECTIONS;

// The most sections, a factor for each of four trains.
const SECTIONS: u32 = Railway::SECTIONS as u32;

// The round that is going on: the railway's table and its ways, for moves and for going back; the round's number n, how many placements there are, and the first
// rounds that a figure n makes due.
#[derive(Clone, Copy)]
struct ThisRound<'a> {
    table: &'a Table,
    ways: &'a Ways,
    behind: &'a Ways,
    n: u32,
    m: u32,
    soon: Soon,
}

// Codes in a row, up to one that is not among them.
#[derive(Clone, Copy)]
pub struct Codes {
    pub from: u32,
    pub upto: u32,
}

// A train that may have come to a placement by the last move: the placement with its code, the train and its stride.
#[derive(Clone, Copy)]
pub struct Mover {
    pub placement: Placement,
    pub code: u32,
    pub train: u8,
    pub stride: u32,
}

// Before the first round, in two tables that are long enough: home has figure 0, every other placement none, and no setting is set.
pub fn begin(table: &Table, figures: &mut [u32], settings: &mut [u32])
    ensures { (r : Railway) → Compiled r table.now
        → placements r ≤ length figures.old → placements r ≤ length settings.old
        → After r 0 figures.old settings.old figures.new settings.new }
{
    let m = game_moves::placements(table);
    if figures.len() < (m as usize) {
        return;
    }
    if settings.len() < (m as usize) {
        return;
    }
    clear(table, figures, settings, m);
}

// Round n, in place, and a later round before which none is due. The tables have to be those of the round before, and the marks right for
// round n; then they are those of round n, and right for the one that is answered.
pub fn round(
    table: &Table,
    ways: &Ways,
    behind: &Ways,
    figures: &mut [u32],
    settings: &mut [u32],
    marks: &mut [u32],
    n: u32,
) -> u32
    ensures { (n < no_figure → n < result) × ((r : Railway) (k : ℕ) → Compiled r table.now
        → Laid r (is_closed r) ways.now → Behind r behind.now
        → placements r ≤ length figures.old → placements r ≤ length settings.old → n ≤ most_figure → n ≡ suc k
        → RoundTables r k figures.old settings.old → MarkedFor r n figures.old marks.old
        → RoundPost r n figures.old settings.old figures.new settings.new result
        × MarkedFor r result figures.new marks.new) }
{
    let m = game_moves::placements(table);
    if figures.len() < (m as usize) {
        return NO_FIGURE;
    }
    if settings.len() < (m as usize) {
        return NO_FIGURE;
    }
    if LAST_ROUND < n {
        return NO_FIGURE;
    }
    one_round(table, ways, behind, figures, settings, marks, m, n)
}

// Before the first round: home has figure 0, every other placement none, and no setting is set.
fn clear(table: &Table, figures: &mut [u32], settings: &mut [u32], m: u32)
    requires { (m ≤ length figures.old) × (m ≤ length settings.old) }
    ensures { (r : Railway) → Compiled r table.now → m ≡ placements r
        → After r 0 figures.old settings.old figures.new settings.new }
{
    let home = game_moves::home_code(table);
    for p in 0..m {
        figures[p as usize] = first_figure(home, p);
        settings[p as usize] = 0;
    }
}

// The figure of a placement before the first round: 0 at home, which no two trains share, and none elsewhere.
fn first_figure(home: u32, p: u32) -> u32
    ensures { (r : Railway) → record_refusal r ≡ none → home ≡ home_code r → p < placements r → result ≡ first_figure r p }
{
    if p == home { 0 } else { NO_FIGURE }
}

// Round n, in place, stretch after stretch; and which round is the next that can bring anything.
fn one_round(
    table: &Table,
    ways: &Ways,
    behind: &Ways,
    figures: &mut [u32],
    settings: &mut [u32],
    marks: &mut [u32],
    m: u32,
    n: u32,
) -> u32
    requires { (m ≤ length figures.old) × (m ≤ length settings.old) × (n ≤ most_figure) }
    ensures { (n < result) × ((r : Railway) (k : ℕ) → Compiled r table.now
        → Laid r (is_closed r) ways.now → Behind r behind.now → m ≡ placements r → n ≡ suc k
        → RoundTables r k figures.old settings.old → MarkedFor r n figures.old marks.old
        → RoundPost r n figures.old settings.old figures.new settings.new result
        × MarkedFor r result figures.new marks.new) }
{
    let soon = solver_dues::soon(table, n);
    let this = ThisRound {
        table,
        ways,
        behind,
        n,
        m,
        soon,
    };
    for t in 0..railway_compiled::trains_in(table) {
        round_by(&this, figures, settings, marks, t);
    }
    solver_dues::next_round(table, marks, m, n)
}

// This round by the weight of train t, stretch after stretch, unless a lower train has the weight too, whose turn it was then, or no
// stretch is due by it. `search_ahead` goes over a frontier too, but writes nothing and ends at what it finds: one walk for both would hand the tables, and what is
// done at a placement, on through six functions.
fn round_by(this: &ThisRound, figures: &mut [u32], settings: &mut [u32], marks: &mut [u32], t: u8)
    requires { (this.now.m ≤ length figures.old) × (this.now.m ≤ length settings.old) }
    ensures { (r : Railway) → Round r this.now (record { train = t; code = 0 })
        figures.old marks.old → t < r.trains
        → Visited r this.now.n (record { train = suc t; code = 0 }) (Apart r this.now.n figures.old 0 this.now.m t)
        figures.old settings.old figures.new settings.new marks.new }
{
    if solver_dues::shares_weight(this.table, t) {
        return;
    }
    let n = this.n;
    let m = this.m;
    if n == 0 {
        return;
    }
    if n < solver_marks::next_due(marks, t, m, n - 1) {
        return;
    }
    let mut c: u32 = 0;
    while c < m {
        let upto = stretch_end(c, m);
        visit_stretch(this, figures, settings, marks, t, Codes { from: c, upto });
        c = upto;
    }
}

// Where the stretch that begins with code c ends, the last one at m.
fn stretch_end(c: u32, m: u32) -> u32
    requires c_lt_m { c < m }
    requires stretch_length_value { c % stretch_length ≡ 0 }
    ensures { (c < result) × (result ≤ m) × Stretch m c result × (result < m → result % stretch_length ≡ 0) }
{
    if m - c <= STRETCH {
        return m;
    }
    c + STRETCH
}

// This round for a stretch, if the weight of train t makes it due: what is one move of a train of that weight before its placements of the
// frontier, and then when it is due again.
fn visit_stretch(
    this: &ThisRound,
    figures: &mut [u32],
    settings: &mut [u32],
    marks: &mut [u32],
    t: u8,
    codes: Codes,
)
    requires { (this.now.m ≤ length figures.old) × (this.now.m ≤ length settings.old)
        × (codes.from < codes.upto) × (codes.upto ≤ this.now.m) }
    ensures { (r : Railway) → Round r this.now (record { train = t; code = codes.from })
        figures.old marks.old
        → t < r.trains → First r t → Stretch this.now.m codes.from codes.upto
        → Visited r this.now.n (record { train = t; code = codes.upto })
        (Ahead r this.now.n (weight_of r t) figures.old codes.from codes.upto)
        figures.old settings.old figures.new settings.new marks.new }
{
    let n = this.n;
    let Codes { from, upto } = codes;
    if n < solver_marks::due_at(marks, t, from) {
        return;
    }
    let w = railway_compiled::weight_in(this.table, t);
    visit_codes(this, figures, settings, marks, w, codes);
    let most = solver_marks::most_at(marks, from);
    let due = solver_dues::due_behind(this.table, figures, most, n, from, upto, t);
    solver_marks::set_due(marks, t, from, due);
}

// This round for what is one move of a train of weight w before the placements with codes in a range whose figure makes its number with w.
fn visit_codes(
    this: &ThisRound,
    figures: &mut [u32],
    settings: &mut [u32],
    marks: &mut [u32],
    w: u8,
    codes: Codes,
)
    requires { (this.now.m ≤ length figures.old) × (this.now.m ≤ length settings.old) × (codes.upto ≤ this.now.m) }
    ensures { (r : Railway) (d : Turned) → Round r this.now d figures.old marks.old
        → Visited r this.now.n d (Ahead r this.now.n w figures.old codes.from codes.upto)
        figures.old settings.old
        figures.new settings.new marks.new }
{
    let n = this.n;
    if n < (w as u32) {
        return;
    }
    let last = n - (w as u32);
    let mut from = codes.from;
    while let Some(c) = next_with(figures, last, from, codes.upto) {
        visit_before(this, figures, settings, marks, w, c);
        from = c + 1;
    }
}

// The next code from c on with this figure, of those below upto.
fn next_with(figures: &[u32], figure: u32, c: u32, upto: u32) -> Option<u32>
    requires { upto ≤ length figures.now }
    ensures { MatchOption result (Passed figures.now figure c upto) (NextWith figures.now figure c upto) }
{
    let start = pass_blocks(figures, figure, c, upto);
    for e in start..upto {
        if figures[e as usize] == figure {
            return Some(e);
        }
    }
    None
}

// Where passing by whole blocks from c on ends: at a block that has this figure, or at one that is not whole.
fn pass_blocks(figures: &[u32], figure: u32, c: u32, upto: u32) -> u32
    requires { upto ≤ length figures.now }
    ensures { (c ≤ result) × Passed figures.now figure c result }
{
    let mut e = c;
    while e < upto {
        if upto - e < BLOCK {
            return e;
        }
        if has_figure(&figures[e as usize..(e + BLOCK) as usize], figure) {
            return e;
        }
        e += BLOCK;
    }
    e
}

// Whether this figure is among these. All of them are looked at, with no stop at the first as `contains` has it, so that several can be at once.
fn has_figure(figures: &[u32], figure: u32) -> bool
    ensures { result ≡ false → (i : ℕ) → i < length figures.now → get_or figures.now i 0 ≡ figure → ⊥ }
{
    let mut has = false;
    for f in figures {
        has |= *f == figure;
    }
    has
}

// This round for what is one move of a train of weight w before the placement of code c, train by train.
fn visit_before(
    this: &ThisRound,
    figures: &mut [u32],
    settings: &mut [u32],
    marks: &mut [u32],
    w: u8,
    c: u32,
)
    requires { (this.now.m ≤ length figures.old) × (this.now.m ≤ length settings.old) × (c < this.now.m) }
    ensures { (r : Railway) (d : Turned) → Round r this.now d figures.old marks.old
        → Visited r this.now.n d (Comes r w c r.trains) figures.old settings.old
        figures.new settings.new marks.new }
{
    let q = game_moves::placement_of(this.table, c);
    let s = railway_compiled::sections_in(this.table);
    let mut stride: u32 = 1;
    for t in 0..railway_compiled::trains_in(this.table) {
        let mover = Mover {
            placement: q,
            code: c,
            train: t,
            stride,
        };
        visit_weighing(this, figures, settings, marks, w, mover);
        stride = next_stride(stride, s, t);
    }
}

// The same for one train, if that is its weight.
fn visit_weighing(
    this: &ThisRound,
    figures: &mut [u32],
    settings: &mut [u32],
    marks: &mut [u32],
    w: u8,
    mover: Mover,
)
    requires { (this.now.m ≤ length figures.old) × (this.now.m ≤ length settings.old) }
    ensures { (r : Railway) (d : Turned) → MoverOf r this.now.table.now this.now.behind.now mover
        → Round r this.now d figures.old marks.old
        → Visited r this.now.n d (ByWeight r w mover.code mover.train) figures.old settings.old
        figures.new settings.new marks.new }
{
    if railway_compiled::weight_in(this.table, mover.train) != w {
        return;
    }
    visit_train(this, figures, settings, marks, mover);
}

// The stride of the train behind train t, from that of train t, among s sections.
fn next_stride(stride: u32, s: u8, t: u8) -> u32
    ensures { stride ≡ stride_of s t → result ≡ stride_of s (t + 1) }
{
    if t < Railway::TRAINS {
        return stride.wrapping_mul(s as u32);
    }
    stride
}

// This round for what is one move of a train before a placement: the train stands on a section behind, one for each way back.
fn visit_train(
    this: &ThisRound,
    figures: &mut [u32],
    settings: &mut [u32],
    marks: &mut [u32],
    mover: Mover,
)
    requires { (this.now.m ≤ length figures.old) × (this.now.m ≤ length settings.old) }
    ensures { (r : Railway) (d : Turned) → MoverOf r this.now.table.now this.now.behind.now mover
        → Round r this.now d figures.old marks.old
        → Visited r this.now.n d (By r mover.code mover.train) figures.old settings.old
        figures.new settings.new marks.new }
{
    let t = mover.train;
    let x = game_placement::section_at(mover.placement, t);
    let e = solver_predecessors::end_behind(this.table, t, x);
    for j in 0..MOST_WAYS {
        let y = railway_routes::way_to(this.behind, e, j);
        if y == NO_SECTION {
            return;
        }
        let p = game_moves::code_put(mover.code, mover.stride, x, y);
        visit_put(this, figures, settings, marks, mover, y, p);
    }
}

// This round for the placement with the train on section y and the others as they are, if it has no figure yet; p is its code.
fn visit_put(
    this: &ThisRound,
    figures: &mut [u32],
    settings: &mut [u32],
    marks: &mut [u32],
    mover: Mover,
    y: u8,
    p: u32,
)
    requires { (this.now.m ≤ length figures.old) × (this.now.m ≤ length settings.old) }
    ensures { (r : Railway) (d : Turned)
        → Round r this.now d figures.old marks.old
        → On r mover.code this.now.table.now mover.placement → mover.train < r.trains → y < r.sections
        → p ≡ code_with r mover.code mover.train y
        → Visited r this.now.n d (One p) figures.old settings.old
        figures.new settings.new marks.new }
{
    if !waits(figures, this.m, p) {
        return;
    }
    let q = game_moves::put_on(mover.placement, mover.train, y);
    visit(this, figures, settings, marks, q, p);
}

// Whether p is a code that has no figure yet.
fn waits(figures: &[u32], m: u32, p: u32) -> bool
    requires { m ≤ length figures.now }
    ensures { Waits figures.now m p result }
{
    if m <= p {
        return false;
    }
    figures[p as usize] == NO_FIGURE
}

// This round at one placement without a figure: if it gets one, that is marked for its stretch.
fn visit(
    this: &ThisRound,
    figures: &mut [u32],
    settings: &mut [u32],
    marks: &mut [u32],
    q: Placement,
    p: u32,
)
    requires { (p < length figures.old) × (p < length settings.old) }
    ensures { (r : Railway) (d : Turned)
        → Round r this.now d figures.old marks.old
        → On r p this.now.table.now q → p < placements r → figure_in figures.old p ≡ none
        → Visited r this.now.n d (One p) figures.old settings.old
        figures.new settings.new marks.new }
{
    let n = this.n;
    let found = solver_settings::find_in(this.table, this.ways, figures, q, p, n);
    let Some(v) = found else {
        return;
    };
    figures[p as usize] = n;
    settings[p as usize] = v;
    solver_marks::gain(marks, p, n, this.soon);
}
