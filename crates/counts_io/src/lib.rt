// What program showcounts does: a case text on standard input; on standard output how many placements there are, how many lead home, the largest figure and how the figures are spread, or
// `refused`, a tab and the number.
#![tactic(auto)]

ghost use Rattle.std.specs.Prelude.{◌≡◌, suc, ◌≤◌, length};
ghost use Rattle.case_file.specs.Rows.{most_bytes};
ghost use Rattle.answer_lines.specs.Lines.{refusal_line, FrontIs};
ghost use Rattle.counts_text.specs.Chart.{chart_bytes};
ghost use Rattle.counts_io.specs.Shown.{ToldCounts, RailwayShown, CaseShown, Shown};

use game_tables::ENTRIES;
use railway::{Railway, Refusal};

// The descriptor of standard input.
const STDIN_FILENO: i32 = 0;

// The descriptor of standard output.
const STDOUT_FILENO: i32 = 1;

// One byte more than a case text may have: so many bytes decide what is written (`CutShows` in specs/Shown).
const CASE: usize = case_file::MOST_BYTES + 1;

// The answer is how many bytes there are to be written.
pub fn write_counts() -> usize
    ensures { Shown result }
{
    let mut case = [0u8; CASE];
    let mut text = [0u8; counts_text::TEXT];
    counts_input(&mut case, &mut text)
}

// Reads, calls and writes, with a buffer for all bytes that decide and one for every text.
fn counts_input(case: &mut [u8], text: &mut [u8]) -> usize
    requires case_len { length case.old ≡ suc most_bytes }
    requires chart_bytes_in_bounds { chart_bytes ≤ length text.old }
    ensures { Shown result }
{
    let came = io::read_full(STDIN_FILENO, case);
    let n = case_text(&case[..came], text);
    io::write_all(STDOUT_FILENO, &text[..n]);
    n
}

// A case text: refused by the reader, or read.
fn case_text(case: &[u8], text: &mut [u8]) -> usize
    requires { chart_bytes ≤ length text.old }
    ensures { FrontIs (CaseShown case.now) result text.new }
{
    match case_reader::read_case(case) {
        Err(f) => refused_text(f, text),
        Ok(r) => railway_text(r, text),
    }
}

// A railway: solved with tables of the call's own, of which the figures are counted.
fn railway_text(r: Railway, text: &mut [u8]) -> usize
    requires { chart_bytes ≤ length text.old }
    ensures { FrontIs (RailwayShown r) result text.new }
{
    let mut figures = [0u32; ENTRIES];
    let mut settings = [0u32; ENTRIES];
    let _ = solver::solve(r, &mut figures, &mut settings);
    match counts_call::count_figures(r, &figures) {
        Err(f) => refused_text(f, text),
        Ok(counts) => counted_text(
            game_moves::power(r.sections, r.trains),
            &figures,
            &counts,
            text,
        ),
    }
}

// The counts of n placements.
fn counted_text(n: u32, figures: &[u32], counts: &[u32], text: &mut [u8]) -> usize
    requires { chart_bytes ≤ length text.old }
    ensures { FrontIs (ToldCounts figures.now n counts.now) result text.new }
{
    let a = search_progress::so_far(figures, n);
    counts_text::put_counts(text, 0, n, a, counts)
}

// A refusal, by its number in the table.
fn refused_text(f: Refusal, text: &mut [u8]) -> usize
    requires { chart_bytes ≤ length text.old }
    ensures { FrontIs (λ t. t ≡ refusal_line f) result text.new }
{
    match answer_lines::refusal_line(f, text) {
        Ok(n) => n,
        Err(_) => 0,
    }
}
