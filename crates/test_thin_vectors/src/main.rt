// Plans thinned. Standard input is records (crate test_framing), two for each: a case text and a plan's. For each the answer of the call, and the tables as it leaves them, a line for each listed
// code: code, figure, setting; or the refusal of the first line that is refused. Behind them calls on records and tables that the program makes.
#![tactic(auto)]

use game_tables::{ENTRIES, NO_FIGURE};
use plan_checker::Checker;
use railway::Railway;
use railway_compiled::TABLE;
use test_framing::STDOUT_FILENO;

fn main() {
    for _ in 0..u64::MAX {
        let mut case = io::large_buffer();
        let mut plan = io::large_buffer();
        let (Some(n), Some(m)) = test_framing::next_pair(&mut case, &mut plan, b"no plan\n") else {
            break;
        };
        show(&case[..n], &plan[..m]);
    }
    own_calls();
}

fn show(case: &[u8], plan: &[u8]) {
    match case_reader::read_case(case) {
        Err(f) => {
            let mut line = [0u8; answer_output::LINE];
            answer_output::refusal(f, &mut line);
        }
        Ok(r) => own_tables(r, plan),
    }
}

// The plan is entered into tables of the call's own.
fn own_tables(r: Railway, plan: &[u8]) {
    let mut figures = [0u32; ENTRIES];
    let mut settings = [0u32; ENTRIES];
    let (checker, _) = Checker::fresh(r, &mut figures, &mut settings);
    run(checker, r, plan, &mut figures, &mut settings);
}

// Its lines taken, and then thinned; a line that is refused ends it.
fn run(
    start: Checker,
    r: Railway,
    plan: &[u8],
    figures: &mut [u32],
    settings: &mut [u32],
) -> Checker {
    let gone = check_text::go_on(start, r, plan, figures, settings);
    let n = gone.bytes;
    if n < plan.len() {
        let answer = check_text::finish(gone.checker, r, &plan[n..], figures, settings);
        let mut line = [0u8; answer_output::LINE];
        answer_output::test_answer(answer, &mut line);
    } else {
        thinned(&gone.checker, r, figures, settings);
    }
    gone.checker
}

// The call, what it answers and what it leaves.
fn thinned(checker: &Checker, r: Railway, figures: &[u32], settings: &mut [u32]) {
    match thin_call::thin(checker, r, figures, settings) {
        Ok(()) => {
            io::write_all(STDOUT_FILENO, b"thinned\n");
        }
        Err(f) => {
            let mut line = [0u8; answer_output::LINE];
            answer_output::refusal(f, &mut line);
        }
    }
    entries(r, figures, settings);
}

// Every code whose figure is not none; of a record that is refused, which has no codes, 0 alone.
fn entries(r: Railway, figures: &[u32], settings: &[u32]) {
    let table = railway_compiled::compile(r).unwrap_or([0; TABLE]);
    for p in 0..game_moves::placements(&table) {
        let n = game_tables::entry_at(figures, p, NO_FIGURE);
        if n < NO_FIGURE {
            entry(p, n, game_tables::entry_at(settings, p, 0));
        }
    }
}

fn entry(p: u32, figure: u32, setting: u32) {
    io::print_decimal(STDOUT_FILENO, p as u64);
    io::write_all(STDOUT_FILENO, b"\t");
    io::print_decimal(STDOUT_FILENO, figure as u64);
    io::write_all(STDOUT_FILENO, b"\t");
    io::print_decimal(STDOUT_FILENO, setting as u64);
    io::write_all(STDOUT_FILENO, b"\n");
}

// OWN CALLS. A record that breaks a row, and two sidings with a signal each.
fn own_calls() {
    io::write_all(STDOUT_FILENO, b"own calls\n");
    short_tables(Railway::empty());
    if let Ok(r) = case_reader::read_case(
        b"H\t4\t0\t2\nJ\t1u\t2d\nJ\t3u\t4d\nG\t1u\nG\t3u\nT\t1\tu\t1\t2\nT\t2\tu\t3\t4\n",
    ) {
        short_tables(r);
        on_and_on(r);
    }
}

// Tables that are one entry too short for the sidings, and hold what no checker has entered.
fn short_tables(r: Railway) {
    let figures = [1u32; 15];
    let mut settings = [983041u32; 15];
    let mut other_figures = [0u32; 15];
    let mut other_settings = [0u32; 15];
    let (checker, _) = Checker::fresh(r, &mut other_figures, &mut other_settings);
    thinned(&checker, r, &figures, &mut settings);
}

// No line yet; a plan that opens both trains; the same thinned again; a line more, with which it fails, and stays as it is; and a line that does not rise.
fn on_and_on(r: Railway) {
    let mut figures = [7u32; 18];
    let mut settings = [7u32; 18];
    let (fresh, _) = Checker::fresh(r, &mut figures, &mut settings);
    let none = run(fresh, r, b"", &mut figures, &mut settings);
    let once = run(
        none,
        r,
        b"plan\t2\n1\t3\t2\t12\t.\n2\t3\t1\t2\t.\n1\t4\t1\t1\t.\n2\t4\t0\t0\t.\n",
        &mut figures,
        &mut settings,
    );
    let twice = run(once, r, b"", &mut figures, &mut settings);
    let more = run(twice, r, b"3\t4\t5\t0\t.\n", &mut figures, &mut settings);
    run(more, r, b"3\t4\t5\t0\t.\n", &mut figures, &mut settings);
}
