// Moves and first settings in small yards: Yard A of document 01, and a yard for each way in which moves are easily got wrong. A line
// each: what is asked, a tab, and the answer. A move answers `-` (not allowed), `x` (derails), `c` (collides) or the code it leads
// to; a search answers `none` or the entry. Sections, points and trains are counted from 0 in the code, from 1 in the text.
#![tactic(auto)]

use game_moves::Fault;
use game_tables::NO_FIGURE;
use railway::{End, Leg, PointNo, Railway, SectionNo, Side, Train};
use railway_compiled::{TABLE, Table};
use railway_routes::Ways;
use test_framing::STDOUT_FILENO;

fn number(label: &[u8], n: u32) {
    io::write_all(STDOUT_FILENO, label);
    io::write_all(STDOUT_FILENO, b"\t");
    io::print_decimal(STDOUT_FILENO, n as u64);
    io::write_all(STDOUT_FILENO, b"\n");
}

fn word(label: &[u8], w: &[u8]) {
    io::write_all(STDOUT_FILENO, label);
    io::write_all(STDOUT_FILENO, b"\t");
    io::write_all(STDOUT_FILENO, w);
    io::write_all(STDOUT_FILENO, b"\n");
}

fn flag(label: &[u8], b: bool) {
    if b {
        word(label, b"yes");
    } else {
        word(label, b"no");
    }
}

fn show_move(label: &[u8], table: &Table, ways: &Ways, p: u32, v: u32, t: u8) {
    match game_moves::move_of(table, ways, p, v, t) {
        Err(Fault::NotAllowed) => word(label, b"-"),
        Err(Fault::Derails) => word(label, b"x"),
        Err(Fault::Collides) => word(label, b"c"),
        Ok(q) => number(label, q),
    }
}

fn show_first(label: &[u8], table: &Table, ways: &Ways, figures: &[u32], p: u32, n: u32) {
    match solver_settings::find_setting(table, ways, figures, p, n) {
        None => word(label, b"none"),
        Some(v) => number(label, v),
    }
}

fn show_test(label: &[u8], r: Railway) {
    match railway_compiled::compile(r) {
        Ok(_) => word(label, b"accepted"),
        Err(f) => number(label, f.number() as u32),
    }
}

fn table_of(r: Railway) -> Table {
    railway_compiled::compile(r).unwrap_or([0; TABLE])
}

fn ways_of(r: Railway) -> Ways {
    railway_routes::ways_of(&r.links, &r.closed)
}

fn up(n: u8) -> End {
    End::Section(SectionNo(n), Side::Up)
}

fn down(n: u8) -> End {
    End::Section(SectionNo(n), Side::Down)
}

fn port(l: Leg) -> End {
    port_of(0, l)
}

fn port_of(n: u8, l: Leg) -> End {
    End::Port(PointNo(n), l)
}

fn counts(s: u8, p: u8, k: u8) -> Railway {
    let mut r = Railway::empty();
    r.sections = s;
    r.points = p;
    r.trains = k;
    r
}

fn train(r: Railway, t: u8, heading: Side, from: u8, to: u8) -> Railway {
    weighing(r, t, heading, from, to, 1)
}

fn weighing(r: Railway, t: u8, heading: Side, from: u8, to: u8, weight: u8) -> Railway {
    r.with_train(
        t,
        Train {
            heading: heading,
            start: SectionNo(from),
            destination: SectionNo(to),
            weight: weight,
        },
    )
}

// Yard A's point: sections 1 and 2 at its legs, 3 at its stem. All yards with it have the same ways.
fn fork(k: u8) -> Railway {
    let r = counts(3, 1, k).with_legs(PointNo(0), Side::Down);
    let a = r.with_join(up(0), port(Leg::Plus));
    let b = a.with_join(up(1), port(Leg::Minus));
    b.with_join(down(2), port(Leg::Stem))
}

fn yard_a_less() -> Railway {
    let r = train(fork(2), 0, Side::Up, 1, 2);
    train(r, 1, Side::Down, 2, 0).with_signal(up(1))
}

// Two trains towards the legs, both free.
fn legs() -> Railway {
    let r = train(fork(2), 0, Side::Up, 0, 2);
    train(r, 1, Side::Up, 1, 0)
}

// Yard A, where (2,3) has code 7, (2,1) 1, (3,1) 2, (1,3) 6 and (1,1) 0.
fn codes() {
    let t = table_of(yard_a_less().with_signal(down(0)));
    number(b"placements of A", game_moves::placements(&t));
    number(b"start of A", game_moves::start_code(&t));
    number(b"home of A", game_moves::home_code(&t));
    number(
        b"code of (2,3) again",
        game_moves::code_of(&t, game_moves::placement_of(&t, 7)),
    );
    flag(b"(1,1) lost", game_moves::is_lost(&t, 0));
    flag(b"(2,3) lost", game_moves::is_lost(&t, 7));
    flag(b"(3,1) home", game_moves::is_home(&t, 2));
    flag(b"(2,1) home", game_moves::is_home(&t, 1));
    number(
        b"end of train 1 in (2,3)",
        railway::index_of(game_moves::heads_for(&t, 7, 0)) as u32,
    );
    number(
        b"end of train 2 in (2,3)",
        railway::index_of(game_moves::heads_for(&t, 7, 1)) as u32,
    );
    flag(
        b"train 1 may move in (2,3), closed",
        game_moves::may_move(&t, 7, 0, 0),
    );
    flag(
        b"train 1 may move in (2,3), open",
        game_moves::may_move(&t, 7, 65536, 0),
    );
    flag(
        b"train 2 may move in (2,3), free",
        game_moves::may_move(&t, 7, 0, 1),
    );
    flag(
        b"train 3 may move, not there",
        game_moves::may_move(&t, 7, 0, 2),
    );
}

fn moves_of_a() {
    let r = yard_a_less().with_signal(down(0));
    let t = table_of(r);
    let w = ways_of(r);
    show_move(b"stem, plus set", &t, &w, 7, 1, 1);
    show_move(b"stem, minus set, section taken", &t, &w, 7, 0, 1);
    show_move(b"held", &t, &w, 7, 1, 0);
    show_move(b"set leg, section taken", &t, &w, 7, 65536, 0);
    show_move(b"leg not set", &t, &w, 7, 65537, 0);
    show_move(b"set leg", &t, &w, 1, 65536, 0);
    show_move(b"end of track", &t, &w, 3, 131072, 1);
    show_move(b"parked", &t, &w, 1, 131072, 1);
    show_move(b"no such train", &t, &w, 7, 65536, 2);
}

fn firsts_of_a() {
    let r = yard_a_less().with_signal(down(0));
    let t = table_of(r);
    let w = ways_of(r);
    let less = table_of(yard_a_less());
    let mut figures = [NO_FIGURE; 9];
    figures[1] = 1;
    figures[2] = 0;
    show_first(
        b"(2,3) below 2: a free train, nothing opened",
        &t,
        &w,
        &figures,
        7,
        2,
    );
    show_first(b"(2,3) below 1", &t, &w, &figures, 7, 1);
    show_first(b"(2,1) below 1: one opened", &t, &w, &figures, 1, 1);
    show_first(
        b"(2,1) below 1 without 1d: train 2 is parked",
        &less,
        &w,
        &figures,
        1,
        1,
    );
    show_first(
        b"(1,3): a free train derails or collides",
        &t,
        &w,
        &figures,
        6,
        9,
    );
    show_first(b"(1,1): lost", &t, &w, &figures, 0, 9);
    show_first(b"(2,3) with a short table", &t, &w, &[], 7, 9);
}

// Yard A with weights, 5 for train 1 and 2 for train 2: what is just enough and what is one less, and figures at their largest.
fn firsts_by_weights() {
    let a = yard_a_less().with_signal(down(0));
    let r = weighing(weighing(a, 0, Side::Up, 1, 2, 5), 1, Side::Down, 2, 0, 2);
    let t = table_of(r);
    let w = ways_of(r);
    let mut figures = [NO_FIGURE; 9];
    figures[1] = 5;
    figures[2] = 0;
    show_first(b"weight 2, from 7 to 5", &t, &w, &figures, 7, 7);
    show_first(b"weight 2, from 6 to 5", &t, &w, &figures, 7, 6);
    show_first(b"weight 5, from 5 to 0", &t, &w, &figures, 1, 5);
    show_first(b"weight 5, from 4 to 0", &t, &w, &figures, 1, 4);
    figures[1] = 4294967292;
    show_first(b"weight 2, the largest", &t, &w, &figures, 7, 4294967294);
    figures[1] = 4294967294;
    show_first(
        b"weight 2, both the largest",
        &t,
        &w,
        &figures,
        7,
        4294967294,
    );
}

fn firsts_at_legs() {
    let zeros = [0u32; 9];
    let mut most = [0u32; 9];
    most[5] = NO_FIGURE;
    let w = ways_of(legs());
    let free = table_of(legs());
    let first = table_of(legs().with_signal(up(1)));
    let second = table_of(legs().with_signal(up(0)));
    let held = table_of(legs().with_signal(up(0)).with_signal(up(1)));
    let stem = table_of(train(fork(1), 0, Side::Down, 2, 0));
    show_first(b"two free trains at one point", &free, &w, &zeros, 3, 1);
    show_first(b"the free one at the plus leg", &first, &w, &zeros, 3, 1);
    show_first(b"the free one at the minus leg", &second, &w, &zeros, 3, 1);
    show_first(b"both held: the lowest", &held, &w, &zeros, 3, 1);
    show_first(b"both held: the lowest that works", &held, &w, &most, 3, 1);
    show_first(b"both held: below 0", &held, &w, &zeros, 3, 0);
    show_first(b"both legs good: minus", &stem, &w, &zeros, 2, 1);
    show_first(b"minus bad: plus", &stem, &w, &[0, NO_FIGURE, 0], 2, 1);
}

// A loop: 1u leads to the stem, and plus back to 1d.
fn ring() {
    let a = counts(2, 1, 1).with_legs(PointNo(0), Side::Up);
    let b = a.with_join(up(0), port(Leg::Stem));
    let c = b.with_join(port(Leg::Plus), down(0));
    let d = c.with_join(port(Leg::Minus), down(1));
    let r = train(d, 0, Side::Up, 0, 1);
    let t = table_of(r);
    let w = ways_of(r);
    show_move(b"round into its own section", &t, &w, 0, 1, 0);
    show_move(b"round the other way", &t, &w, 0, 0, 0);
    show_first(b"below 1, home being 0", &t, &w, &[NO_FIGURE, 0], 0, 1);
}

// Points joined to points: sections 1 and 2 lead to point 1, that to point 2, and from there the line goes by point 3 to section 4, the loop by section 3. Train 1
// is to go up from 1 to 4, train 2 down from 4 to 2; both ends of 3 have signals.
fn loop_yard() -> Railway {
    let a = counts(4, 3, 2).with_legs(PointNo(0), Side::Down);
    let b = a
        .with_legs(PointNo(1), Side::Up)
        .with_legs(PointNo(2), Side::Down);
    let c = b
        .with_join(up(0), port_of(0, Leg::Plus))
        .with_join(up(1), port_of(0, Leg::Minus));
    let d = c
        .with_join(down(2), port_of(1, Leg::Plus))
        .with_join(up(2), port_of(2, Leg::Plus));
    let e = d.with_join(down(3), port_of(2, Leg::Stem));
    let f = e.with_join(port_of(0, Leg::Stem), port_of(1, Leg::Stem));
    let g = f.with_join(port_of(1, Leg::Minus), port_of(2, Leg::Minus));
    let h = g.with_signal(down(2)).with_signal(up(2));
    train(train(h, 0, Side::Up, 0, 3), 1, Side::Down, 3, 1)
}

// At the start, (1,4), of code 12, each train by itself would have the points otherwise than both together.
fn firsts_at_loop() {
    let r = loop_yard();
    let t = table_of(r);
    let w = ways_of(r);
    let n = NO_FIGURE;
    let figures = [n, n, n, n, 1, n, 1, 0, 2, 2, n, 1, 3, 3, 2, n];
    show_test(b"points joined to points", r);
    show_move(b"over two points into the loop", &t, &w, 12, 3, 0);
    show_move(b"over three points, section taken", &t, &w, 12, 1, 0);
    show_move(b"leg not set, the second point", &t, &w, 12, 3, 1);
    show_move(b"over one point into the loop", &t, &w, 12, 7, 1);
    show_first(b"two free trains, one way each", &t, &w, &figures, 12, 3);
    show_first(b"the same below 2", &t, &w, &figures, 12, 2);
    show_first(b"two free trains that agree", &t, &w, &figures, 13, 3);
    show_first(b"one opened, over one point", &t, &w, &figures, 6, 1);
    show_first(b"the other opened, over two", &t, &w, &figures, 11, 1);
}

fn main() {
    codes();
    moves_of_a();
    firsts_of_a();
    firsts_by_weights();
    firsts_at_legs();
    ring();
    firsts_at_loop();
    show_test(b"the empty record", Railway::empty());
    show_test(b"A without 1d", yard_a_less());
}
