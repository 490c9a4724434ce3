// What every move ends in, for case texts: by rising code, each placement with no two trains on a section, and there by rising entry of the
// setting table: the code, the entry, and of each train `-` it may not move, `x` it derails, `c` it collides, or the section it then stands on.
// Standard input is records (crate test_framing).
#![tactic(auto)]

use game_moves::Fault;
use railway::Railway;
use railway_compiled::Table;
use railway_routes::Ways;
use test_framing::STDOUT_FILENO;

// How many sets of open trains there can be.
const OPENS: u32 = 1u32 << Railway::TRAINS;

// The bit of the first train in an entry of the setting table, as a number: points have the bits below.
const FIRST_TRAIN: u32 = 1u32 << Railway::POINTS;

fn main() {
    for _ in 0..u64::MAX {
        let mut space = io::large_buffer();
        let Some(n) = test_framing::next_text(&mut space) else {
            return;
        };
        show(&space[..n]);
    }
}

fn show(text: &[u8]) {
    if let Ok(r) = case_reader::read_case(text) {
        io::write_all(STDOUT_FILENO, b"case\n");
        placements(r);
    }
}

fn placements(r: Railway) {
    let Ok(table) = railway_compiled::compile(r) else {
        return;
    };
    let ways = railway_routes::ways_of(&r.links, &r.closed);
    for p in 0..game_moves::placements(&table) {
        if !game_moves::is_lost(&table, p) {
            settings(&table, &ways, r.trains, r.points, p);
        }
    }
}

// Every set of open trains.
fn settings(table: &Table, ways: &Ways, k: u8, q: u8, p: u32) {
    let n = power(k);
    for mask in 0..n {
        points(table, ways, k, q, p, mask % OPENS);
    }
}

// Every way that the points may lie.
fn points(table: &Table, ways: &Ways, k: u8, q: u8, p: u32, open: u32) {
    let n = power(q);
    for bits in 0..n {
        line(
            table,
            ways,
            k,
            p,
            (open % OPENS) * FIRST_TRAIN + bits % FIRST_TRAIN,
        );
    }
}

// Two to the power n, for the sixteen points at most.
fn power(n: u8) -> u32 {
    if n < 17 { 1u32 << n } else { 1 }
}

fn line(table: &Table, ways: &Ways, k: u8, p: u32, v: u32) {
    io::print_decimal(STDOUT_FILENO, p as u64);
    tab();
    io::print_decimal(STDOUT_FILENO, v as u64);
    for t in 0..k {
        tab();
        outcome(table, ways, p, v, t);
    }
    line_end();
}

fn tab() {
    io::write_all(STDOUT_FILENO, b"\t");
}

fn line_end() {
    io::write_all(STDOUT_FILENO, b"\n");
}

fn outcome(table: &Table, ways: &Ways, p: u32, v: u32, t: u8) {
    match game_moves::move_of(table, ways, p, v, t) {
        Err(Fault::NotAllowed) => {
            io::write_all(STDOUT_FILENO, b"-");
        }
        Err(Fault::Derails) => {
            io::write_all(STDOUT_FILENO, b"x");
        }
        Err(Fault::Collides) => {
            io::write_all(STDOUT_FILENO, b"c");
        }
        Ok(q) => {
            let x = game_placement::section_at(game_moves::placement_of(table, q), t);
            io::print_decimal(STDOUT_FILENO, x as u64 + 1);
        }
    }
}
