// The marks: what a solver notes for each stretch of codes, in one lent list: for each train the next round that its weight makes due for the stretch, or an earlier
// one, and behind all of these the largest figure in it, or a larger one. So a solver passes by the stretches where a round has nothing to do, and by the
// rounds that are due nowhere. No function asks for anything; what they promise holds of a list with room for all stretches.
#![tactic(auto)]

ghost use Rattle.std.specs.Prelude.{◌≡◌, ℕ, ◌+◌, ◌≤◌, ◌<◌, get_or};
ghost use Rattle.railway.specs.Bounds.{most_trains};
ghost use Rattle.game_tables.specs.Tables.{no_figure};
ghost use Rattle.solver_marks.specs.Marks.{stretch_of, most_codes, due_at, most_at, Room, Raised, Set, Lowered, Lifted};

use game_tables::NO_FIGURE;
use railway::Railway;

// The most sections.
const SECTIONS: usize = Railway::SECTIONS as usize;

// The most trains.
const TRAINS: usize = Railway::TRAINS as usize;

// The most codes: a factor for each of four trains.
const MOST_CODES: usize = SECTIONS * SECTIONS * SECTIONS * SECTIONS;

// How many codes a stretch has. Nine times the most sections is a moderate length: there are few marks, and few codes are looked at where a
// mark does not rule them out.
pub const STRETCH: u32 = 9 * (Railway::SECTIONS as u32);

// How many stretches the largest table has.
pub const STRETCHES: usize = MOST_CODES / (STRETCH as usize);

// How many marks there are: one for each of them and each train, and one more for each of them.
pub const MARKS: usize = (TRAINS + 1) * STRETCHES;

// The rounds that a new figure is the first to make due, by the weight of each train; the largest number where there is no such train, or where a lower one has
// its weight.
pub type Soon = [u32; TRAINS];

// The next round that the weight of train t makes due for the stretch of code c, or an earlier one. Past the last mark stands 0.
pub fn due_at(marks: &[u32], t: u8, c: u32) -> u32
    ensures { result ≡ due_at marks.now t c }
{
    mark_at(marks, (t as usize) * STRETCHES + ((c / STRETCH) as usize))
}

// The largest figure in the stretch of code c, or a larger one. Past the last mark stands 0.
pub fn most_at(marks: &[u32], c: u32) -> u32
    ensures { result ≡ most_at marks.now c }
{
    mark_at(marks, TRAINS * STRETCHES + ((c / STRETCH) as usize))
}

// The stretch of code c has gained figure n, for which these rounds are the first that can be due. The rounds that are due for it are those or earlier ones,
// and its largest figure is n at least.
pub fn gain(marks: &mut [u32], c: u32, n: u32, soon: Soon)
    ensures { Room marks.old → c < most_codes → Raised marks.old c n soon marks.new }
{
    let i = (c / STRETCH) as usize;
    for (t, due) in soon.iter().enumerate() {
        lower(marks, t * STRETCHES + i, *due);
    }
    lift(marks, TRAINS * STRETCHES + i, n);
}

// By the weight of train t this round is due next for the stretch of code c, whatever its mark said before. All other marks stay.
pub fn set_due(marks: &mut [u32], t: u8, c: u32, due: u32)
    ensures { Room marks.old → t < most_trains → c < most_codes → Set marks.old t c due marks.new }
{
    let i = (t as usize) * STRETCHES + ((c / STRETCH) as usize);
    if i < marks.len() {
        marks[i] = due;
    }
}

// The first round behind n that the weight of train t makes due for a stretch of the codes below m, or an earlier one: the one behind n if a mark is not above n,
// or if there are too few. Past the largest number there is no round, and the answer is n.
pub fn next_due(marks: &[u32], t: u8, m: u32, n: u32) -> u32
    ensures { (n < no_figure → n < result) × ((q k : ℕ) → q < m → n < k → due_at marks.now t q ≤ k → result ≤ k) }
{
    let due = least(marks, (t as usize) * STRETCHES, stretches_below(m));
    due.max(n.saturating_add(1))
}

// The mark at i. Past the last mark stands 0.
fn mark_at(marks: &[u32], i: usize) -> u32
    ensures { result ≡ get_or marks.now i 0 }
{
    marks.get(i).copied().unwrap_or(0)
}

// The mark at i is x at most. It is written only where it was larger; for the largest number it is not even read.
fn lower(marks: &mut [u32], i: usize, x: u32)
    ensures { Lowered marks.old i x marks.new }
{
    if x == NO_FIGURE {
        return;
    }
    if i < marks.len() && x < marks[i] {
        marks[i] = x;
    }
}

// The mark at i is x at least. It is written only where it was smaller.
// It stays apart from `lower`: a function for both would be handed the comparison and the number that is passed over, at each call.
fn lift(marks: &mut [u32], i: usize, x: u32)
    ensures { Lifted marks.old i x marks.new }
{
    if i < marks.len() && marks[i] < x {
        marks[i] = x;
    }
}

// How many stretches have codes below m.
fn stretches_below(m: u32) -> usize
    ensures { (q : ℕ) → q < m → stretch_of q < result }
{
    m.div_ceil(STRETCH) as usize
}

// The least of so many marks from `start` on; 0 if there are fewer, and the largest number if none is asked for. All are read with no stop, so that several can
// be at once.
fn least(marks: &[u32], start: usize, count: usize) -> u32
    ensures { (i : ℕ) → i < count → result ≤ get_or marks.now (start + i) 0 }
{
    if marks.len() < start {
        return 0;
    }
    if marks.len() - start < count {
        return 0;
    }
    let mut x = NO_FIGURE;
    for y in &marks[start..start + count] {
        x = x.min(*y);
    }
    x
}
