// The lines of program deskrun. What it writes for a state: where each train stands, and `open` behind those whose signal is to be opened; the figure that is left; how the points are
// to lie. `home` stands for the last. What it reads: a report, train and section; or a change of case, with the name of a file. All functions are total.
#![tactic(auto)]

ghost use Rattle.std.specs.Prelude.{◌≡◌};
ghost use Rattle.laws.specs.Below.{gather_below};
ghost use Rattle.text.specs.Appending.{Appended};
ghost use Rattle.answer_lines.specs.Lines.{PutPost};
ghost use Rattle.desk_lines.specs.Panel.{train_piece, points_part, state_line, home_line};
ghost use Rattle.desk_lines.specs.Reports.{place_of, report_in, report_read};
ghost use Rattle.desk_lines.specs.Changes.{is_change};

use game_placement::{Placement, TRAIN_BITS};
use railway::Refusal;
use text::{Cursor, LINE_END, TAB, Width, append};

// Room enough for the line of a state, in a case that is accepted.
pub const LINE: usize = 200;

// So many bytes of a line, without its end, decide whether it is a report or a change (`CutReads` in specs/Reports, `CutChanges` in specs/Changes).
pub const INPUT: usize = 65;

// In a change the name of the file stands behind so many bytes.
pub const NAME: usize = 7;

// A number that no train and no section has, counted from 0.
const NOWHERE: u8 = 255;

// The line of a state, at a cursor: k trains at placement q, figure n, and entry v of the setting table over m points. It answers the cursor behind it; a byte that finds no room is
// lost.
pub fn state_line(out: &mut [u8], at: usize, k: u8, m: u8, q: Placement, n: u32, v: u32) -> usize
    ensures { Appended out.old at (state_line k m q n v) out.new result }
{
    let a = put_trains(out, at, k, q, v);
    let b = append::number(out, a, n, b' ');
    let c = append::bytes(out, b, b"left | points ");
    let d = put_points(out, c, m, v);
    append::byte(out, d, LINE_END)
}

// The trains are home.
pub fn home_line(out: &mut [u8]) -> Result<usize, Refusal>
    ensures { PutPost home_line out.old result out.new }
{
    answer_lines::put(b"home\n", out)
}

fn put_trains(out: &mut [u8], at: usize, k: u8, q: Placement, v: u32) -> usize
    ensures { Appended out.old at (gather_below (train_piece q v) k) out.new result }
{
    let mut next = at;
    for t in 0..k {
        next = put_train(out, next, q, v, t);
    }
    next
}

// One train, where it stands, and whether its signal is to be opened.
fn put_train(out: &mut [u8], at: usize, q: Placement, v: u32, t: u8) -> usize
    ensures { Appended out.old at (train_piece q v t) out.new result }
{
    let a = append::bytes(out, at, b"train ");
    let b = append::number(out, a, t as u32 + 1, b' ');
    let c = append::bytes(out, b, b"at ");
    let d = append::number(out, c, game_placement::section_at(q, t) as u32 + 1, b' ');
    if game_placement::bit_at(v, TRAIN_BITS + (t as u32)) {
        return append::bytes(out, d, b"open | ");
    }
    append::bytes(out, d, b"| ")
}

// The points' signs, or that there are none.
fn put_points(out: &mut [u8], at: usize, m: u8, v: u32) -> usize
    ensures { Appended out.old at (points_part m v) out.new result }
{
    if m == 0 {
        return append::bytes(out, at, b"none");
    }
    plan_lines::put_signs(out, at, m, v)
}

// A report: two numbers and a tab between them, and nothing behind. The line is handed in without its end.
pub fn report_in(line: &[u8]) -> Option<(u64, u64)>
    ensures { report_read result ≡ report_in line.now }
{
    let (t, tab) = text::number_at(line, Cursor { at: 0 }, Width::Three)?;
    let field = text::byte_at(line, tab, TAB)?;
    let (x, end) = text::number_at(line, field, Width::Three)?;
    if end.at < line.len() {
        return None;
    }
    Some((t, x))
}

// A train or a section by its number in the document, as the desk counts them, from 0; those that cannot be there are one that is not.
pub fn place_of(n: u64) -> u8
    ensures { result ≡ place_of n }
{
    if n == 0 {
        return NOWHERE;
    }
    if 255 < n {
        return NOWHERE;
    }
    (n - 1) as u8
}

// A change: the word, and in all no more bytes than a change may have. The line is handed in without its end.
pub fn is_change(line: &[u8]) -> bool
    ensures { result ≡ is_change line.now }
{
    if INPUT <= line.len() {
        return false;
    }
    line.starts_with(b"change\t")
}
