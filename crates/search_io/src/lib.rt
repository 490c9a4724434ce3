// What program searchrun does: a case text on standard input; on standard output a line for each round of its search that brings figures, as soon as the
// round is finished, and then all that program signalplan writes for the text. Where the case is refused, that alone.
#![tactic(auto)]

ghost use Rattle.plan_io.specs.Planned.{Planned};

use game_tables::ENTRIES;
use railway::Railway;
use search::{Marks, Search, Stage};
use search_progress::Progress;
use solver_marks::MARKS;
use solver_rounds::LAST_ROUND;

// The descriptor of standard input.
const STDIN_FILENO: i32 = 0;

// One byte more than a case text may have: so many bytes decide what is written (`CutWrites` in plan_text/specs/Written).
const CASE: usize = case_file::MOST_BYTES + 1;

// Reads, searches and writes, with a buffer for all bytes that decide and one for every text. The answer is how many bytes there are to be written behind the
// lines of the rounds.
pub fn write_search() -> usize
    ensures { Planned result }
{
    let mut case = [0u8; CASE];
    let mut text = [0u8; plan_text::TEXT];
    let came = io::read_full(STDIN_FILENO, &mut case);
    write_rounds(&case[..came]);
    let put = plan_text::case_text(&case[..came], &mut text);
    answer_output::front_bytes(&text, put)
}

// The lines of a case text's rounds; none where it is refused.
fn write_rounds(case: &[u8]) {
    if let Ok(r) = case_reader::read_case(case) {
        open(r);
    }
}

// A search with tables and marks of its own.
fn open(r: Railway) {
    let Ok(table) = railway_compiled::compile(r) else {
        return;
    };
    let mut figures = [0u32; ENTRIES];
    let mut settings = [0u32; ENTRIES];
    let mut marks = [0u32; MARKS];
    let Ok(mut search) = search_calls::open(r, &mut figures, &mut settings, &mut marks) else {
        return;
    };
    let m = game_moves::placements(&table);
    rounds(&mut search, r, &mut figures, &mut settings, &mut marks, m);
}

// Its rounds, with a line for each after which more placements have a figure than before.
fn rounds(
    search: &mut Search,
    r: Railway,
    figures: &mut [u32],
    settings: &mut [u32],
    marks: &mut Marks,
    m: u32,
) {
    let mut last = search_progress::so_far(figures, m);
    for _ in 0..=LAST_ROUND {
        let Ok(stage) = search_calls::round(search, r, figures, settings, marks) else {
            return;
        };
        let now = search_progress::so_far(figures, m);
        if last.count < now.count {
            write_line(search.rounds, now);
        }
        if let Stage::Ended = stage {
            return;
        }
        last = now;
    }
}

// The line of a round.
fn write_line(round: u32, a: Progress) {
    let mut line = [0u8; search_progress::LINE];
    let put = search_progress::round_line(round, a, &mut line);
    answer_output::front(&line, put);
}
