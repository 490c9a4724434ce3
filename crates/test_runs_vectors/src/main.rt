// Tables of runs for case texts: a refusal's line; or `case`, and for heading up and then down, by rising row and column, the heading, the row, the column and the entry, where that says a run.
// Standard input is records (crate test_framing). Behind them records made here, all but the second such as no text makes, handed to the call itself:
// what each is, the number that is answered, 0 for none, and whether a table came back with other entries than were handed in.
#![tactic(auto)]

use railway::{End, Railway, Refusal, SectionNo, Side, Train};
use runs_tables::{NO_RUN, Runs};
use test_framing::STDOUT_FILENO;

// What stands in the tables that are handed in: no run of the yards here is so long, so that an entry which is left shows.
const OLD: u8 = 77;

const COLUMNS: usize = Railway::SECTIONS as usize;

fn main() {
    for _ in 0..u64::MAX {
        let mut space = io::large_buffer();
        let Some(n) = test_framing::next_text(&mut space) else {
            break;
        };
        show(&space[..n]);
    }
    refused_records();
}

fn show(text: &[u8]) {
    match case_reader::read_case(text) {
        Err(f) => {
            let mut line = [0u8; answer_output::LINE];
            answer_output::refusal(f, &mut line);
        }
        Ok(r) => {
            io::write_all(STDOUT_FILENO, b"case\n");
            tables(r);
        }
    }
}

// Both tables, the second made of what the first call handed back.
fn tables(r: Railway) {
    let old = [[OLD; COLUMNS]; COLUMNS];
    let up = heading_table(b"u\t", r, Side::Up, old);
    heading_table(b"d\t", r, Side::Down, up);
}

// The table of a heading; refused, which would show, the one that was handed in.
fn heading_table(word: &[u8], r: Railway, heading: Side, old: Runs) -> Runs {
    match runs_tables::run_table(r, heading, old) {
        Ok(table) => {
            rows(word, table);
            table
        }
        Err(f) => {
            left(f);
            rows(word, old);
            old
        }
    }
}

fn left(f: Refusal) {
    io::write_all(STDOUT_FILENO, b"left\t");
    io::print_decimal(STDOUT_FILENO, f.number() as u64);
    line_end();
}

fn rows(heading: &[u8], table: Runs) {
    for (x, row) in table.iter().enumerate() {
        columns(heading, x, row);
    }
}

fn columns(heading: &[u8], x: usize, row: &[u8; COLUMNS]) {
    for (y, v) in row.iter().enumerate() {
        entry(heading, x, y, *v);
    }
}

fn entry(heading: &[u8], x: usize, y: usize, v: u8) {
    if v == NO_RUN {
        return;
    }
    io::write_all(STDOUT_FILENO, heading);
    io::print_decimal(STDOUT_FILENO, (x as u64).saturating_add(1));
    tab();
    io::print_decimal(STDOUT_FILENO, (y as u64).saturating_add(1));
    tab();
    io::print_decimal(STDOUT_FILENO, v as u64);
    line_end();
}

// RECORDS with a fault, one for each number that a record can get, and one without.
fn refused_records() {
    handed(b"nothing there", Railway::empty());
    let one = counted(1, 0);
    handed(b"one section", one.with_train(0, train(0, 0, 1)));
    handed(b"a train of weight 0", one.with_train(0, train(0, 0, 0)));
    handed(
        b"a start that is not there",
        one.with_train(0, train(1, 0, 1)),
    );
    handed(
        b"both ends of one section",
        with_train(one.with_join(section(0, Side::Up), section(0, Side::Down))),
    );
    handed(b"a point without joins", with_train(counted(1, 1)));
    handed(b"a round of two points", with_train(round()));
    handed(
        b"a train on a closed section",
        with_train(one.with_closed(0)),
    );
}

fn counted(sections: u8, points: u8) -> Railway {
    let mut r = Railway::empty();
    r.sections = sections;
    r.points = points;
    r.trains = 1;
    r
}

fn train(start: u8, destination: u8, weight: u8) -> Train {
    Train {
        heading: Side::Up,
        start: SectionNo(start),
        destination: SectionNo(destination),
        weight: weight,
    }
}

fn with_train(r: Railway) -> Railway {
    r.with_train(0, train(0, 0, 1))
}

fn section(n: u8, side: Side) -> End {
    End::Section(SectionNo(n), side)
}

// Two points whose ports are joined each to the other's.
fn round() -> Railway {
    test_framing::in_round(counted(1, 2))
}

fn handed(what: &[u8], r: Railway) {
    io::write_all(STDOUT_FILENO, what);
    tab();
    let old = [[OLD; COLUMNS]; COLUMNS];
    let answer = runs_tables::run_table(r, Side::Up, old);
    let number = match answer {
        Ok(_) => 0,
        Err(f) => f.number(),
    };
    io::print_decimal(STDOUT_FILENO, number as u64);
    // A refusal brings no table: the one that was handed in, by value, is then as it came.
    if answer.is_ok_and(|table| !same(table)) {
        io::write_all(STDOUT_FILENO, b"\tfilled\n");
    } else {
        io::write_all(STDOUT_FILENO, b"\tas it came\n");
    }
}

// All entries are those of the table that was handed in.
fn same(table: Runs) -> bool {
    table.iter().all(|row| row.iter().all(|v| *v == OLD))
}

fn tab() {
    io::write_all(STDOUT_FILENO, b"\t");
}

fn line_end() {
    io::write_all(STDOUT_FILENO, b"\n");
}
