// How many placements have each figure, for case texts. Standard input is records (crate test_framing), a case text each; it is solved, and the figure table that the solver left is counted: a line
// for each figure up to 254 that some placement has, with their number, then one for the greater figures and one for none; or the number of the refusal. Behind them come records and
// tables that no case text gives.
#![tactic(auto)]

use counts::CLASSES;
use game_tables::{ENTRIES, NO_FIGURE};
use railway::{Railway, Refusal};
use test_framing::STDOUT_FILENO;

fn main() {
    for _ in 0..u64::MAX {
        let mut space = io::large_buffer();
        let Some(n) = test_framing::next_text(&mut space) else {
            break;
        };
        show(&space[..n]);
    }
    own_records();
}

fn show(case: &[u8]) {
    match case_reader::read_case(case) {
        Err(f) => refused(f),
        Ok(r) => solved(r),
    }
}

// The solver's table; where the solver refuses, counting does so too, for the same reason.
fn solved(r: Railway) {
    let mut figures = [0u32; ENTRIES];
    let mut settings = [0u32; ENTRIES];
    let _ = solver::solve(r, &mut figures, &mut settings);
    tell(counts_call::count_figures(r, &figures));
}

// Three placements, with figures about the last that is counted for itself, and two entries past the last code; tables that are too short; a round of two points gets 13 and a weight of 0
// gets 16, whatever the length of the table, and with both it is 16.
fn own_records() {
    let plain = record_of(0, 1);
    let round = record_of(2, 1);
    let entries = [254u32, 255, NO_FIGURE, 0, 254];
    tell(counts_call::count_figures(plain, &entries));
    tell(counts_call::count_figures(plain, &entries[..3]));
    tell(counts_call::count_figures(plain, &entries[..2]));
    tell(counts_call::count_figures(plain, &entries[..0]));
    tell(counts_call::count_figures(round, &entries));
    tell(counts_call::count_figures(round, &entries[..2]));
    tell(counts_call::count_figures(record_of(0, 0), &entries));
    tell(counts_call::count_figures(record_of(0, 0), &entries[..0]));
    tell(counts_call::count_figures(record_of(2, 0), &entries));
    tell(counts_call::count_figures(Railway::empty(), &entries[..0]));
}

// Three sections that nothing joins, and a train with a weight; two points, if there are any, in a round.
fn record_of(points: u8, weight: u8) -> Railway {
    let r = test_framing::one_train(3, points, 2, weight);
    if points == 0 {
        return r;
    }
    test_framing::in_round(r)
}

fn tell(answer: Result<[u32; CLASSES], Refusal>) {
    match answer {
        Err(f) => refused(f),
        Ok(counts) => lines(&counts),
    }
}

fn lines(counts: &[u32]) {
    io::write_all(STDOUT_FILENO, b"case\n");
    each(counts);
    io::write_all(STDOUT_FILENO, b"more\t");
    number(game_tables::entry_at(counts, 255, 0));
    io::write_all(STDOUT_FILENO, b"none\t");
    number(game_tables::entry_at(counts, 256, 0));
}

// The figures that have a count of their own, and that some placement has.
fn each(counts: &[u32]) {
    for i in 0u32..255 {
        let n = game_tables::entry_at(counts, i, 0);
        if n != 0 {
            io::print_decimal(STDOUT_FILENO, i as u64);
            io::write_all(STDOUT_FILENO, b"\t");
            number(n);
        }
    }
}

fn refused(f: Refusal) {
    io::write_all(STDOUT_FILENO, b"refused\t");
    number(f.number() as u32);
}

fn number(n: u32) {
    io::print_decimal(STDOUT_FILENO, n as u64);
    io::write_all(STDOUT_FILENO, b"\n");
}
