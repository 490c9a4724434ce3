// What the solver answers and leaves in the tables: document 01's yards, then other accepted cases, then two with weights, in the second of which a dear
// train's short way loses against a cheap one's long way, then two that are refused. Standard input is records (crate test_framing), each a case text. For
// each: the number that the exported call answers, and the first code's entries; what the exported calls for a plan answer, with bytes, places and
// states that they leave; the answer, then by rising code the figure (`none` for no figure) and the setting; then what comes of tables just long
// enough and one entry shorter, and of records that are refused. Every entry that the solver is lent holds a mark before the call.
#![tactic(auto)]

use game_tables::{ENTRIES, NO_FIGURE};
use railway::{Railway, Refusal, Train};
use test_framing::STDOUT_FILENO;

const MARK: u32 = 7;

// The bytes of a buffer for a plan's lines, and how often it is lent at most.
const ROOM: usize = 128;

const TURNS: u32 = 1024;

fn main() {
    for _ in 0..u64::MAX {
        let mut space = io::large_buffer();
        let Some(n) = test_framing::next_text(&mut space) else {
            return;
        };
        exported(&space[..n]);
        show(&space[..n]);
    }
}

fn show(text: &[u8]) {
    match case_reader::read_case(text) {
        Ok(r) => accepted(r),
        Err(f) => {
            let mut line = [0u8; answer_output::LINE];
            answer_output::refusal(f, &mut line);
        }
    }
}

// The exported call's number, 0 where nothing is refused; the first code's entries then.
fn exported(text: &[u8]) {
    let mut figures = [MARK; ENTRIES];
    let mut settings = [MARK; ENTRIES];
    let n = solver_api::solve_case(text, &mut figures, &mut settings);
    io::write_all(STDOUT_FILENO, b"exported call\t");
    io::print_decimal(STDOUT_FILENO, n as u64);
    io::write_all(STDOUT_FILENO, b"\n");
    entry(0, figures[0], settings[0]);
    planned(text, &figures, &settings);
}

// The exported calls for a plan: its lines, some at a time, handed to a check as they come; then the test.
fn planned(text: &[u8], figures: &[u32], settings: &[u32]) {
    let mut listed = [MARK; ENTRIES];
    let mut set = [MARK; ENTRIES];
    let mut state = [MARK; 3];
    let n = solver_api::begin_check(text, &mut state, &mut listed, &mut set);
    stated(b"check begins", n, state[0], state[1]);
    lines(text, figures, settings, &mut state, &mut listed, &mut set);
    let tested = solver_api::test_plan(text, &state, &listed, &set);
    stated(b"test", tested, state[0], state[1]);
}

fn lines(
    text: &[u8],
    figures: &[u32],
    settings: &[u32],
    state: &mut [u32; 3],
    listed: &mut [u32],
    set: &mut [u32],
) {
    let mut place: u64 = 0;
    for _ in 0..TURNS {
        if !part(text, figures, settings, &mut place, state, listed, set) {
            return;
        }
    }
}

// As many lines as have room; answers whether there were any.
fn part(
    text: &[u8],
    figures: &[u32],
    settings: &[u32],
    place: &mut u64,
    state: &mut [u32; 3],
    listed: &mut [u32],
    set: &mut [u32],
) -> bool {
    let mut out = [0u8; ROOM];
    let mut bytes: usize = 0;
    let answer = solver_api::write_plan_lines(text, figures, settings, place, &mut out, &mut bytes);
    let next = *place;
    numbers(b"lines written", answer, bytes as u64, next);
    let mut taken: usize = 0;
    let refused = handed(text, state, &out, bytes, listed, set, &mut taken);
    numbers(
        b"bytes handed in and taken",
        refused,
        bytes as u64,
        taken as u64,
    );
    let figure = state[1];
    let lowest = state[2];
    stated(b"figure and lowest code", refused, figure, lowest);
    answer == 0
}

// The lines that were written, handed to the check.
fn handed(
    text: &[u8],
    state: &mut [u32; 3],
    out: &[u8],
    bytes: usize,
    listed: &mut [u32],
    set: &mut [u32],
    taken: &mut usize,
) -> u8 {
    if bytes <= out.len() {
        return solver_api::take_plan_lines(text, state, &out[..bytes], listed, set, taken);
    }
    0
}

// An answer's number, and two numbers of the state that it leaves.
fn stated(label: &[u8], answer: u8, one: u32, other: u32) {
    numbers(label, answer, one as u64, other as u64);
}

// An answer's number, and two numbers that it leaves.
fn numbers(label: &[u8], answer: u8, one: u64, other: u64) {
    io::write_all(STDOUT_FILENO, label);
    io::write_all(STDOUT_FILENO, b"\t");
    io::print_decimal(STDOUT_FILENO, answer as u64);
    io::write_all(STDOUT_FILENO, b"\t");
    io::print_decimal(STDOUT_FILENO, one);
    io::write_all(STDOUT_FILENO, b"\t");
    io::print_decimal(STDOUT_FILENO, other);
    io::write_all(STDOUT_FILENO, b"\n");
}

fn accepted(r: Railway) {
    let Ok(table) = railway_compiled::compile(r) else {
        return;
    };
    let n = game_moves::placements(&table);
    io::write_all(STDOUT_FILENO, b"case\n");
    solved(r, n);
    just_long_enough(r, n as usize);
    refused_records(r);
}

// Tables of more entries than there are placements.
fn solved(r: Railway, n: u32) {
    let mut figures = [MARK; ENTRIES];
    let mut settings = [MARK; ENTRIES];
    let a = solver::solve(r, &mut figures, &mut settings);
    answer(a);
    entries(&figures, &settings, n);
    flag(
        b"past the last code as before",
        marked_from(&figures, n as usize) && marked_from(&settings, n as usize),
    );
}

// Tables of as many entries as there are placements, and either of them one shorter.
fn just_long_enough(r: Railway, n: usize) {
    if 0 < n {
        io::write_all(STDOUT_FILENO, b"entries for all codes\t");
        lent(r, n, n);
        io::write_all(STDOUT_FILENO, b"one figure fewer\t");
        lent(r, n - 1, n);
        io::write_all(STDOUT_FILENO, b"one setting fewer\t");
        lent(r, n, n - 1);
    }
}

// The empty record, the railway with its second train where the first is, and with weight 0 for its first.
fn refused_records(r: Railway) {
    io::write_all(STDOUT_FILENO, b"empty record\t");
    lent(Railway::empty(), ENTRIES, ENTRIES);
    if 1 < r.trains {
        let first = r.train_of(0);
        io::write_all(STDOUT_FILENO, b"two trains in one place\t");
        lent(r.with_train(1, first), ENTRIES, ENTRIES);
    }
    io::write_all(STDOUT_FILENO, b"weight 0\t");
    lent(r.with_train(0, weightless(r.train_of(0))), ENTRIES, ENTRIES);
}

// The train with weight 0.
fn weightless(train: Train) -> Train {
    Train { weight: 0, ..train }
}

// The answer with tables of so many entries, and whether these are as before.
fn lent(r: Railway, n: usize, m: usize) {
    let mut figures = [MARK; ENTRIES];
    let mut settings = [MARK; ENTRIES];
    lend(r, &mut figures, &mut settings, n, m);
    flag(
        b"tables as before",
        marked_from(&figures, 0) && marked_from(&settings, 0),
    );
}

fn lend(r: Railway, figures: &mut [u32], settings: &mut [u32], n: usize, m: usize) {
    if n <= figures.len() {
        if m <= settings.len() {
            let a = solver::solve(r, &mut figures[..n], &mut settings[..m]);
            answer(a);
        }
    }
}

fn answer(a: Result<Option<u32>, Refusal>) {
    match a {
        Err(f) => {
            let mut line = [0u8; answer_output::LINE];
            answer_output::refusal(f, &mut line);
        }
        Ok(None) => {
            io::write_all(STDOUT_FILENO, b"none\n");
        }
        Ok(Some(n)) => {
            io::write_all(STDOUT_FILENO, b"figure\t");
            io::print_decimal(STDOUT_FILENO, n as u64);
            io::write_all(STDOUT_FILENO, b"\n");
        }
    }
}

fn entries(figures: &[u32], settings: &[u32], n: u32) {
    for p in 0..n {
        entry(
            p,
            game_tables::entry_at(figures, p, NO_FIGURE),
            game_tables::entry_at(settings, p, 0),
        );
    }
}

fn entry(p: u32, figure: u32, setting: u32) {
    io::print_decimal(STDOUT_FILENO, p as u64);
    io::write_all(STDOUT_FILENO, b"\t");
    if figure == NO_FIGURE {
        io::write_all(STDOUT_FILENO, b"none");
    } else {
        io::print_decimal(STDOUT_FILENO, figure as u64);
    }
    io::write_all(STDOUT_FILENO, b"\t");
    io::print_decimal(STDOUT_FILENO, setting as u64);
    io::write_all(STDOUT_FILENO, b"\n");
}

// Whether the mark stands in every entry from one on.
fn marked_from(table: &[u32], from: usize) -> bool {
    table.iter().skip(from).all(|x| *x == MARK)
}

fn flag(label: &[u8], b: bool) {
    io::write_all(STDOUT_FILENO, label);
    if b {
        io::write_all(STDOUT_FILENO, b"\tyes\n");
    } else {
        io::write_all(STDOUT_FILENO, b"\tno\n");
    }
}
