// Which signal would help, for case texts. Standard input is records (crate test_framing), each a case text. It is told
// what is advised, or the number of the refusal, and then the tables as they are left: code, figure and setting for
// each placement that has a figure. Behind them come records that no case text is read as, and tables that are too
// short or longer than they have to be, with every entry as it is left.
#![tactic(auto)]

use advice::Help;
use game_tables::{ENTRIES, NO_FIGURE};
use railway::{Railway, Refusal, SectionNo, Side};
use test_framing::STDOUT_FILENO;

fn main() {
    for _ in 0..u64::MAX {
        let mut space = io::large_buffer();
        let Some(n) = test_framing::next_text(&mut space) else {
            break;
        };
        show(&space[..n]);
    }
    own_records();
}

fn show(case: &[u8]) {
    match case_reader::read_case(case) {
        Err(f) => refused(f),
        Ok(r) => run(r),
    }
}

// With tables of its own.
fn run(r: Railway) {
    let mut figures = [0u32; ENTRIES];
    let mut settings = [0u32; ENTRIES];
    let a = advice_call::advise(r, &mut figures, &mut settings);
    tell(a);
    if a.is_err() {
        return;
    }
    if let Ok(table) = railway_compiled::compile(r) {
        left(&figures, &settings, game_moves::placements(&table));
    }
}

// The tables as they are left, by rising code.
fn left(figures: &[u32], settings: &[u32], m: u32) {
    for p in 0..m {
        let f = game_tables::entry_at(figures, p, NO_FIGURE);
        if f != NO_FIGURE {
            entry(p, f, game_tables::entry_at(settings, p, 0));
        }
    }
}

fn entry(p: u32, figure: u32, setting: u32) {
    io::print_decimal(STDOUT_FILENO, p as u64);
    said(b"\t");
    io::print_decimal(STDOUT_FILENO, figure as u64);
    said(b"\t");
    io::print_decimal(STDOUT_FILENO, setting as u64);
    said(b"\n");
}

// A round of two points gets 13 and a weight of 0 gets 16, also with tables that are too short; with both it is 16. A train that is home, in one placement, needs no signal, and an entry
// more than that is kept; with no entry in one of the tables it is 9.
fn own_records() {
    small(2, 1, 2, 2);
    small(2, 1, 0, 2);
    small(0, 0, 2, 2);
    small(0, 0, 2, 0);
    small(2, 0, 2, 2);
    small(0, 1, 1, 1);
    small(0, 1, 2, 2);
    small(0, 1, 0, 2);
    small(0, 1, 2, 0);
}

// One section, and a train on it with a weight; two points, if there are any, in a round.
fn record_of(points: u8, weight: u8) -> Railway {
    let r = test_framing::one_train(1, points, 0, weight);
    if points == 0 {
        return r;
    }
    test_framing::in_round(r)
}

// Such a record, with tables of so many entries, two at most.
fn small(points: u8, weight: u8, n: usize, m: usize) {
    let mut figures = [7u32, 7];
    let mut settings = [8u32, 8];
    let r = record_of(points, weight);
    lend(r, &mut figures, &mut settings, n, m);
    said(b"figures\t");
    pair(figures);
    said(b"settings\t");
    pair(settings);
}

fn lend(r: Railway, figures: &mut [u32], settings: &mut [u32], n: usize, m: usize) {
    if n <= figures.len() {
        if m <= settings.len() {
            let a = advice_call::advise(r, &mut figures[..n], &mut settings[..m]);
            tell(a);
        }
    }
}

fn tell(a: Result<Help, Refusal>) {
    match a {
        Ok(Help::NotNeeded) => said(b"signal\tnot needed\n"),
        Ok(Help::Signal(n, s)) => end(n, s),
        Ok(Help::NoneHelps) => said(b"signal\tno single one\n"),
        Err(f) => refused(f),
    }
}

fn pair(entries: [u32; 2]) {
    io::print_decimal(STDOUT_FILENO, entries[0] as u64);
    said(b"\t");
    io::print_decimal(STDOUT_FILENO, entries[1] as u64);
    said(b"\n");
}

// A section end, by its number in the document.
fn end(n: SectionNo, s: Side) {
    said(b"signal\t");
    io::print_decimal(STDOUT_FILENO, n.0 as u64 + 1);
    match s {
        Side::Up => said(b"u\n"),
        Side::Down => said(b"d\n"),
    }
}

fn said(text: &[u8]) {
    io::write_all(STDOUT_FILENO, text);
}

fn refused(f: Refusal) {
    said(b"refused\t");
    io::print_decimal(STDOUT_FILENO, f.number() as u64);
    said(b"\n");
}
