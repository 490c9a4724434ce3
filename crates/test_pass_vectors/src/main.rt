// Where a train comes to and which points it meets, for case texts: by rising section end, 1d, 1u, 2d and on, and there by rising setting of the points: the
// end, the bits of the points at plus, the section or `x` for none, and the points met in order, parted by commas, or `.` for none.
// Standard input is records (crate test_framing).
#![tactic(auto)]

use railway::{End, Railway, SectionNo, Side};
use railway_passing::{MOST_MET, Passed};
use test_framing::STDOUT_FILENO;

fn main() {
    for _ in 0..u64::MAX {
        let mut space = io::large_buffer();
        let Some(n) = test_framing::next_text(&mut space) else {
            return;
        };
        show(&space[..n]);
    }
}

fn show(text: &[u8]) {
    if let Ok(r) = case_reader::read_case(text) {
        io::write_all(STDOUT_FILENO, b"case\n");
        sections(r);
    }
}

// Both ends of every section.
fn sections(r: Railway) {
    let n = r.sections;
    for x in 0..n {
        settings(r, x, Side::Down);
        settings(r, x, Side::Up);
    }
}

// Every way that the points may lie.
fn settings(r: Railway, x: u8, side: Side) {
    let n = power(r.points);
    for bits in 0..n {
        line(r, x, side, bits);
    }
}

// Two to the power n, for the sixteen points at most.
fn power(n: u8) -> u32 {
    if n < 17 { 1u32 << n } else { 1 }
}

fn line(r: Railway, x: u8, side: Side, bits: u32) {
    number(x);
    match side {
        Side::Up => {
            io::write_all(STDOUT_FILENO, b"u\t");
        }
        Side::Down => {
            io::write_all(STDOUT_FILENO, b"d\t");
        }
    }
    io::print_decimal(STDOUT_FILENO, bits as u64);
    tab();
    if let Ok(passed) = railway_passing::pass(r, End::Section(SectionNo(x), side), bits) {
        section(passed.reached);
        tab();
        points(passed);
    }
    line_end();
}

fn section(reached: Option<SectionNo>) {
    match reached {
        None => {
            io::write_all(STDOUT_FILENO, b"x");
        }
        Some(n) => {
            number(n.0);
        }
    }
}

fn points(passed: Passed) {
    let met = passed.points;
    if passed.count == 0 {
        io::write_all(STDOUT_FILENO, b".");
    }
    for i in 0..MOST_MET {
        if i < passed.count {
            if 0 < i {
                io::write_all(STDOUT_FILENO, b",");
            }
            let at = i as usize;
            number(met[at]);
        }
    }
}

// The document's number.
fn number(n: u8) {
    io::print_decimal(STDOUT_FILENO, n as u64 + 1);
}

fn tab() {
    io::write_all(STDOUT_FILENO, b"\t");
}

fn line_end() {
    io::write_all(STDOUT_FILENO, b"\n");
}
