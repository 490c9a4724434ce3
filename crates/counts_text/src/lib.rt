// The text of program showcounts, put into a lent buffer at a cursor: how many placements there are, how many lead home and how many do not, the largest figure; then rows of figures that
// some placement has, with a bar each. All functions are total: a byte that finds no room is lost.
#![tactic(auto)]

ghost use Rattle.std.specs.Prelude.{◌≡◌, [], ◌∷◌, ◌++◌, ◌≤◌};
ghost use Rattle.laws.specs.Below.{gather_below};
ghost use Rattle.text.specs.Text.{decimal, tab, line};
ghost use Rattle.text.specs.Appending.{Appended};
ghost use Rattle.counts_text.specs.Chart.{named, head_text, marks, bar, row_text, rows, span, label, together, figure_row, more_row, counts_text};

use search_progress::Progress;
use text::{LINE_END, TAB, append};

// Room enough for all of it.
pub const TEXT: usize = 2048;

// So many rows there are at most of the figures 0 to 254.
const ROWS: u8 = 17;

// The longest bar.
const LONGEST: u64 = 40;

// Of m placements with these counts, of which so many lead home.
pub fn put_counts(out: &mut [u8], at: usize, m: u32, a: Progress, counts: &[u32]) -> usize
    ensures { Appended out.old at (counts_text m a counts.now) out.new result }
{
    let without = game_tables::entry_at(counts, 256, 0);
    let greater = game_tables::entry_at(counts, 255, 0);
    let rows = put_head(out, at, m, a, without);
    let more = put_rows(out, rows, a.count, span_of(a.largest), counts);
    put_more(out, more, a.count, greater)
}

fn put_head(out: &mut [u8], at: usize, m: u32, a: Progress, without: u32) -> usize
    ensures { Appended out.old at (head_text m a without) out.new result }
{
    let home = put_named(out, at, b"placements", m);
    let none = put_named(out, home, b"lead home", a.count);
    let largest = put_named(out, none, b"none", without);
    put_named(out, largest, b"largest figure", a.largest)
}

// A word and a number.
fn put_named(out: &mut [u8], at: usize, word: &[u8], n: u32) -> usize
    ensures { Appended out.old at (named word.now n) out.new result }
{
    let behind = append::bytes(out, at, word);
    let number = append::byte(out, behind, TAB);
    append::number(out, number, n, LINE_END)
}

// The rows of figures that have a count of their own, where h placements lead home and s figures stand in a row behind its first.
fn put_rows(out: &mut [u8], at: usize, h: u32, s: u8, counts: &[u32]) -> usize
    ensures { Appended out.old at (gather_below (figure_row h s counts.now) rows) out.new result }
{
    let mut next = at;
    for b in 0..ROWS {
        next = put_row(out, next, h, s, b as u32 * (s as u32 + 1), counts);
    }
    next
}

// One of them, by its first figure: nothing, where nothing is counted.
fn put_row(out: &mut [u8], at: usize, h: u32, s: u8, first: u32, counts: &[u32]) -> usize
    requires { first ≤ 4096 }
    ensures { Appended out.old at (row_text h (label s first) (together counts.now s first)) out.new result }
{
    let c = together(counts, s, first);
    if c == 0 {
        return at;
    }
    let behind = put_label(out, at, s, first);
    put_count(out, behind, h, c)
}

// Greater figures have one row.
fn put_more(out: &mut [u8], at: usize, h: u32, c: u32) -> usize
    ensures { Appended out.old at (more_row h c) out.new result }
{
    if c == 0 {
        return at;
    }
    let behind = append::bytes(out, at, b"more\t");
    put_count(out, behind, h, c)
}

// What a row is of, and a tab: its figure, or its first and its last.
fn put_label(out: &mut [u8], at: usize, s: u8, first: u32) -> usize
    requires { first ≤ 4096 }
    ensures { Appended out.old at (label s first ++ (tab ∷ [])) out.new result }
{
    if s == 0 {
        return append::number(out, at, first, TAB);
    }
    let last = append::number(out, at, first, b'-');
    append::number(out, last, first + s as u32, TAB)
}

// What stands behind that: the count, and its bar.
fn put_count(out: &mut [u8], at: usize, h: u32, c: u32) -> usize
    ensures { Appended out.old at (line (decimal c ∷ bar (marks c h) ∷ [])) out.new result }
{
    let marks = append::number(out, at, c, TAB);
    let end = put_marks(out, marks, marks_of(c, h));
    append::byte(out, end, LINE_END)
}

// How many placements have one of the figures of a row.
fn together(counts: &[u32], s: u8, first: u32) -> u32
    requires { first ≤ 4096 }
    ensures { result ≡ together counts.now s first }
{
    let mut sum: u64 = 0;
    for j in 0..s as u32 + 1 {
        sum += game_tables::entry_at(counts, first + j, 0) as u64;
    }
    u32::try_from(sum).unwrap_or(u32::MAX)
}

// How many figures stand in a row behind its first, by the largest.
fn span_of(largest: u32) -> u8
    ensures { result ≡ span largest }
{
    if largest < 255 {
        return largest as u8 / ROWS;
    }
    254 / ROWS
}

fn put_marks(out: &mut [u8], at: usize, n: u64) -> usize
    ensures { Appended out.old at (bar n) out.new result }
{
    let mut next = at;
    for _i in 0..n {
        next = append::byte(out, next, b'#');
    }
    next
}

// How many marks a count has.
fn marks_of(c: u32, h: u32) -> u64
    ensures { result ≡ marks c h }
{
    let count = c as u64;
    let home = h as u64;
    if count < home {
        return (count * LONGEST + (home - 1)) / home;
    }
    LONGEST
}
