// A case on standard input, Yard A's: what the checker makes of its plan's lines when others come before, between and after them that it has to
// refuse. A line for each call: `taken`, `pass`, or `refused`, a tab and the number. A test comes before the first line and one after the last.
// Then the emitter's answer for a buffer that is a byte too short, and that buffer; then the checker's answers to a plan with a wrong figure. Last,
// tables made fresh that are longer than the case needs, and one that is shorter: the entries at the last code and past it.
#![tactic(auto)]

use plan::{Emission, PlanPlace};
use plan_checker::Checker;
use plan_lines::MOST_LINE_BYTES;
use railway::{Railway, Refusal};
use test_framing::STDOUT_FILENO;

// The descriptor of standard input.
const STDIN_FILENO: i32 = 0;

// The placements of three sections and two trains.
const ENTRIES: usize = 9;

fn main() {
    let mut case = io::large_buffer();
    let n = io::read_full(STDIN_FILENO, &mut case);
    match case_reader::read_case(&case[..n]) {
        Err(f) => refused(f),
        Ok(r) => checks(r),
    }
}

fn checks(r: Railway) {
    let mut figures = [0u32; ENTRIES];
    let mut settings = [0u32; ENTRIES];
    let _ = solver::solve(r, &mut figures, &mut settings);
    check(r, &figures, &settings);
    short_of_room(r, &figures, &settings);
    // Code 1, one turn from home, gets the start's figure.
    figures[1] = 2;
    check(r, &figures, &settings);
    fresh_tables(r);
}

// Tables made fresh that have an entry past the last code, and a table that is an entry short.
fn fresh_tables(r: Railway) {
    let mut figures = [7u32; ENTRIES + 1];
    let mut settings = [7u32; ENTRIES + 1];
    let (_, answer) = Checker::fresh(r, &mut figures, &mut settings);
    shown(answer);
    last_two(&figures);
    last_two(&settings);
    let mut short = [7u32; ENTRIES - 1];
    let (_, space) = Checker::fresh(r, &mut short, &mut settings);
    shown(space);
    entry(game_tables::entry_at(&short, 7, 0));
}

fn shown(a: Result<(), Refusal>) {
    match a {
        Ok(()) => {
            io::write_all(STDOUT_FILENO, b"fresh\n");
        }
        Err(f) => refused(f),
    }
}

// The entry at the last code of Yard A, and the one past it.
fn last_two(table: &[u32]) {
    entry(game_tables::entry_at(table, 8, 0));
    entry(game_tables::entry_at(table, 9, 0));
}

fn entry(e: u32) {
    io::print_decimal(STDOUT_FILENO, e as u64);
    io::write_all(STDOUT_FILENO, b"\n");
}

// The plan of two tables, with refused lines.
fn check(r: Railway, figures: &[u32], settings: &[u32]) {
    let mut listed = [0u32; ENTRIES];
    let mut set = [0u32; ENTRIES];
    let (mut checker, _) = Checker::fresh(r, &mut listed, &mut set);
    test(&checker, r, &listed, &set);
    placement(&mut checker, r, &mut listed, &mut set);
    strays(&mut checker, r, &mut listed, &mut set);
    plan_lines(&mut checker, r, figures, settings, &mut listed, &mut set);
    placement(&mut checker, r, &mut listed, &mut set);
    test(&checker, r, &listed, &set);
}

// The lines of the plan, each with refused lines behind it.
fn plan_lines(
    checker: &mut Checker,
    r: Railway,
    figures: &[u32],
    settings: &[u32],
    listed: &mut [u32],
    set: &mut [u32],
) {
    let mut place = PlanPlace::Top;
    for _ in 0..u32::MAX {
        let mut line = [0u8; MOST_LINE_BYTES];
        let emitted = plan_emitter::emit_line(r, figures, settings, place, &mut line);
        let Ok(Emission::Line(n, next)) = emitted else {
            return;
        };
        take_twice(checker, r, &line, n, listed, set);
        place = next;
    }
}

// A line of n bytes, the same again, and lines that are refused wherever they come.
fn take_twice(
    checker: &mut Checker,
    r: Railway,
    buffer: &[u8],
    n: usize,
    listed: &mut [u32],
    set: &mut [u32],
) {
    if let Some(line) = buffer.get(..n) {
        take(checker, r, line, listed, set);
        take(checker, r, line, listed, set);
        strays(checker, r, listed, set);
    }
}

// A placement of code 1: before the first line there is no plan to list it in, behind the last its code falls.
fn placement(checker: &mut Checker, r: Railway, listed: &mut [u32], set: &mut [u32]) {
    take(checker, r, b"2\t1\t1\t1\t-\n", listed, set);
}

// No line at all, and a figure with a zero before it: of the first line, and of the start's.
fn strays(checker: &mut Checker, r: Railway, listed: &mut [u32], set: &mut [u32]) {
    take(checker, r, b"no line\n", listed, set);
    take(checker, r, b"plan\t02\n", listed, set);
    take(checker, r, b"2\t3\t02\t0\t+\n", listed, set);
}

fn take(checker: &mut Checker, r: Railway, line: &[u8], listed: &mut [u32], set: &mut [u32]) {
    match checker.take(r, line, listed, set) {
        Ok(()) => {
            io::write_all(STDOUT_FILENO, b"taken\n");
        }
        Err(f) => refused(f),
    }
}

fn test(checker: &Checker, r: Railway, listed: &[u32], set: &[u32]) {
    let mut line = [0u8; answer_output::LINE];
    answer_output::test_answer(checker.test(r, listed, set), &mut line);
}

fn refused(f: Refusal) {
    let mut line = [0u8; answer_output::LINE];
    answer_output::refusal(f, &mut line);
}

// The first line has seven bytes.
fn short_of_room(r: Railway, figures: &[u32], settings: &[u32]) {
    let mut buffer = [b'#'; 6];
    let emitted = plan_emitter::emit_line(r, figures, settings, PlanPlace::Top, &mut buffer);
    if let Err(f) = emitted {
        refused(f);
    }
    io::write_all(STDOUT_FILENO, &buffer);
    io::write_all(STDOUT_FILENO, b"\n");
}
