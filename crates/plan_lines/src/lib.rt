// A line of a plan, spelled into a lent buffer at a cursor. All functions are total, and each answers the cursor behind what it has written;
// a byte that finds no room is lost. They serve whoever has the parts of a line at hand: the emitter writes its lines with them.
#![tactic(auto)]

ghost use Rattle.std.specs.Prelude.{◌≡◌};
ghost use Rattle.laws.specs.Below.{any_below, gather_below, list_below};
ghost use Rattle.laws.specs.Bits.{bit};
ghost use Rattle.text.specs.Appending.{Appended};
ghost use Rattle.game_tables.specs.Entries.{opens_in};
ghost use Rattle.plan.specs.Lines.{start_line, placement_line, open_field, sign, point_field, spell};
ghost use Rattle.plan_lines.specs.Spelling.{section_piece, open_piece, point_piece, line_of};

use game_placement::{Placement, TRAIN_BITS};
use text::{LINE_END, TAB, append};

// The most bytes of a line, its end included.
pub const MOST_LINE_BYTES: usize = 45;

// The first line of a plan.
pub fn start_line(out: &mut [u8], at: usize, n: u32) -> usize
    ensures { Appended out.old at (spell (start_line n)) out.new result }
{
    let behind = append::bytes(out, at, b"plan\t");
    append::number(out, behind, n, LINE_END)
}

// The line of a placement of k trains with figure n, and entry v of the setting table over m points.
pub fn placement_line(
    out: &mut [u8],
    at: usize,
    k: u8,
    m: u8,
    q: Placement,
    n: u32,
    v: u32,
) -> usize
    ensures { Appended out.old at (spell (placement_line (line_of k m q n v))) out.new result }
{
    let a = put_sections(out, at, k, q);
    let b = append::number(out, a, n, TAB);
    let c = put_open(out, b, k, v);
    let d = append::byte(out, c, TAB);
    let e = put_points(out, d, m, v);
    append::byte(out, e, LINE_END)
}

// The sections, a tab behind each.
fn put_sections(out: &mut [u8], at: usize, k: u8, q: Placement) -> usize
    ensures { Appended out.old at (gather_below (section_piece q) k) out.new result }
{
    let mut next = at;
    for t in 0..k {
        next = append::number(out, next, game_placement::section_at(q, t) as u32 + 1, TAB);
    }
    next
}

// The open trains, or the zero that stands for none.
fn put_open(out: &mut [u8], at: usize, k: u8, v: u32) -> usize
    ensures { Appended out.old at (open_field (list_below (opens_in v) k)) out.new result }
{
    if any_open(k, v) {
        put_trains(out, at, k, v)
    } else {
        append::byte(out, at, b'0')
    }
}

fn any_open(k: u8, v: u32) -> bool
    ensures { result ≡ any_below (opens_in v) k }
{
    (0..k).any(|t| game_placement::bit_at(v, TRAIN_BITS + (t as u32)))
}

fn put_trains(out: &mut [u8], at: usize, k: u8, v: u32) -> usize
    ensures { Appended out.old at (gather_below (open_piece (opens_in v)) k) out.new result }
{
    let mut next = at;
    for t in 0..k {
        next = put_train(out, next, t, v);
    }
    next
}

// One train's digit, if it is open. A number of 32 bits has none for a train past the sixteenth, so that the digit is a byte.
fn put_train(out: &mut [u8], at: usize, t: u8, v: u32) -> usize
    ensures { Appended out.old at (open_piece (opens_in v) t) out.new result }
{
    if game_placement::bit_at(v, TRAIN_BITS + (t as u32)) {
        append::byte(out, at, b'1' + t)
    } else {
        at
    }
}

// The points, or the dot that stands for none.
fn put_points(out: &mut [u8], at: usize, m: u8, v: u32) -> usize
    ensures { Appended out.old at (point_field (list_below (bit v) m)) out.new result }
{
    if m == 0 {
        return append::byte(out, at, b'.');
    }
    put_signs(out, at, m, v)
}

// The signs of m points, in their order.
pub fn put_signs(out: &mut [u8], at: usize, m: u8, v: u32) -> usize
    ensures { Appended out.old at (gather_below (point_piece (bit v)) m) out.new result }
{
    let mut next = at;
    for n in 0..m {
        next = append::byte(out, next, sign(game_placement::bit_at(v, n as u32)));
    }
    next
}

fn sign(plus: bool) -> u8
    ensures { result ≡ sign plus }
{
    if plus { b'+' } else { b'-' }
}
