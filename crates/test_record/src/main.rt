// Records and what their test answers: each row 3 to 8, 13 and 16, its edges, and rows that apply together. A line each: what the record is,
// a tab, and `accepted` or `refused` with the number. A record is given by its counts and by pieces of five bytes: `P1d..` legs,
// `J1u2d` a join, `G1u..` a signal, `X2...` a closed section, `T123.` train 1 up from section 2 to 3, with the case file's numbers, letters and signs.
// The last byte of a train is its weight: `.` for 1, `0` for 0, `*` for 255.
// Row 7 has no line of its own: a record has one flag a signal and one a section, and what is set twice is set.
#![tactic(auto)]

use railway::{End, Leg, PointNo, Railway, SectionNo, Side, Train};
use test_framing::STDOUT_FILENO;

// No record here has more pieces.
const PIECES: usize = 20;

fn byte(s: &[u8], i: usize) -> u8 {
    if i < s.len() { s[i] } else { 0 }
}

// The number of a digit, less one: section `1` is 0.
fn number(b: u8) -> u8 {
    if b < b'1' { 0 } else { b - b'1' }
}

fn side(b: u8) -> Side {
    if b == b'u' { Side::Up } else { Side::Down }
}

fn end(n: u8, mark: u8) -> End {
    match mark {
        b's' => End::Port(PointNo(n), Leg::Stem),
        b'+' => End::Port(PointNo(n), Leg::Plus),
        b'-' => End::Port(PointNo(n), Leg::Minus),
        _ => End::Section(SectionNo(n), side(mark)),
    }
}

fn weight(b: u8) -> u8 {
    if b == b'0' {
        0
    } else if b == b'*' {
        255
    } else {
        1
    }
}

// The record with one piece added: a letter and four bytes.
fn with_piece(r: Railway, letter: u8, a: u8, b: u8, c: u8, d: u8) -> Railway {
    match letter {
        b'P' => r.with_legs(PointNo(number(a)), side(b)),
        b'J' => r.with_join(end(number(a), b), end(number(c), d)),
        b'G' => r.with_signal(end(number(a), b)),
        b'X' => r.with_closed(number(a)),
        b'T' => r.with_train(
            number(a),
            Train {
                heading: Side::Up,
                start: SectionNo(number(b)),
                destination: SectionNo(number(c)),
                weight: weight(d),
            },
        ),
        _ => r,
    }
}

// The piece that begins at a byte; none past the last that is looked at.
fn piece_at(r: Railway, pieces: &[u8], i: usize) -> Railway {
    if i < 5 * PIECES {
        with_piece(
            r,
            byte(pieces, i),
            byte(pieces, i + 1),
            byte(pieces, i + 2),
            byte(pieces, i + 3),
            byte(pieces, i + 4),
        )
    } else {
        r
    }
}

fn built(s: u8, p: u8, k: u8, pieces: &[u8]) -> Railway {
    let mut r = Railway::empty();
    r.sections = s;
    r.points = p;
    r.trains = k;
    for i in 0..PIECES {
        r = piece_at(r, pieces, 5 * i);
    }
    r
}

fn show(label: &[u8], s: u8, p: u8, k: u8, pieces: &[u8]) {
    show_record(label, built(s, p, k, pieces));
}

fn show_record(label: &[u8], r: Railway) {
    io::write_all(STDOUT_FILENO, label);
    match railway_acceptance::test_record(r) {
        Ok(()) => {
            io::write_all(STDOUT_FILENO, b"\taccepted\n");
        }
        Err(f) => {
            io::write_all(STDOUT_FILENO, b"\trefused\t");
            let n = f.number();
            io::print_decimal(STDOUT_FILENO, n as u64);
            io::write_all(STDOUT_FILENO, b"\n");
        }
    }
}

fn accepted() {
    show(b"one section", 1, 0, 1, b"");
    show(b"48 sections", 48, 0, 1, b"");
    show(b"a join, a signal set twice", 2, 0, 1, b"J1u2dG2u..G2u..");
    show(b"legs down", 3, 1, 1, b"P1d..J1s3dJ1u1+J1-2u");
    show(b"legs up", 3, 1, 1, b"P1u..J1s1uJ2d1+J1-3d");
    show(b"sections closed, one twice", 4, 0, 1, b"X2...X4...X2...");
    show(b"4 trains", 4, 0, 4, b"T222.T333.T444.");
    show(b"weights 1 and 255", 2, 0, 2, b"T111.T222*");
    show(b"weight 0 of train 2 of 1", 2, 0, 1, b"T2220");
    show_record(b"bytes 144 and 254 for no join", other_nones());
    show(b"a crossover", 4, 2, 1, b"P2d..J1-2-J1s1uJ1+2dJ2+3uJ2s4d");
    show(
        b"4 points in a row",
        6,
        4,
        1,
        b"J1u1sJ1+2sJ1-2dJ2+3sJ2-3dJ3+4sJ3-4dJ4+6dJ4-5d",
    );
}

// Two ends in no join, with other bytes for that than the one that is written.
fn other_nones() -> Railway {
    let mut r = built(2, 0, 1, b"J1u2d");
    r.links[0] = 144;
    r.links[3] = 254;
    r
}

fn row3() {
    show(b"nothing", 0, 0, 0, b"");
    show(b"49 sections", 49, 0, 1, b"");
    show(b"17 points", 2, 17, 1, b"");
    show(b"no train", 2, 0, 0, b"");
    show(b"5 trains", 2, 0, 5, b"");
}

fn row16() {
    show(b"weight 0", 1, 0, 1, b"T1110");
    show(b"weight 0 of train 4", 4, 0, 4, b"T111*T222.T333*T4440");
}

fn row4() {
    show(b"a join to section 3 of 2", 2, 0, 1, b"J1u3d");
    show(b"a join to a point of none", 2, 0, 1, b"J1u1s");
    show(b"a signal at section 3 of 2", 2, 0, 1, b"G3d..");
    show(b"section 3 of 2 closed", 2, 0, 1, b"X3...");
    show(b"a start on section 3 of 2", 2, 0, 1, b"T131.");
    show(b"a destination on section 3 of 2", 2, 0, 1, b"T113.");
    show_record(b"byte 143, the last port's", last_port());
}

// The first end, 1d, has the last end's byte.
fn last_port() -> Railway {
    let mut r = built(2, 0, 1, b"");
    r.links[0] = 143;
    r
}

fn row5() {
    show(b"ports of one point", 2, 1, 1, b"J1+1s");
    show(b"legs of one point", 2, 1, 1, b"J1+1-");
    show(b"a port with itself", 2, 1, 1, b"J1s1s");
    show(b"legs of two points on one side", 2, 2, 1, b"J1+2-");
    show(b"stems of two points on one side", 2, 2, 1, b"J1s2s");
    show(b"one section", 2, 0, 1, b"J1u1d");
    show(b"an end with itself", 2, 0, 1, b"J1u1u");
    show(b"one side", 2, 0, 1, b"J1u2u");
    show(b"one side, legs down", 3, 1, 1, b"P1d..J1s1uJ2d1+J1-3d");
    show(b"one side, legs up", 3, 1, 1, b"P1u..J1s3dJ1u1+J1-2u");
    show(b"an end in two joins", 3, 0, 1, b"J1u2dJ3u2d");
    show_record(b"half a join", half_join());
}

// The second end, 1u, is joined to 2d, and 2d to nothing. No update makes such a record, so the link is written here.
fn half_join() -> Railway {
    let mut r = built(2, 0, 1, b"");
    r.links[1] = railway::index_of(end(1, b'd'));
    r
}

fn row6() {
    show(b"16 points, no join", 2, 16, 1, b"");
    show(b"a stem in no join", 2, 1, 1, b"P1u..J1d1+J2d1-");
}

fn row13() {
    show(
        b"5 points in a row",
        7,
        5,
        1,
        b"J1u1sJ1+2sJ1-2dJ2+3sJ2-3dJ3+4sJ3-4dJ4+5sJ4-5dJ5+7dJ5-6d",
    );
    show(
        b"5 points in a row, from leg to stem",
        7,
        5,
        1,
        b"P1d..P2d..P3d..P4d..P5d..J1d1sJ1-2sJ1+2uJ2-3sJ2+3uJ3-4sJ3+4uJ4-5sJ4+5uJ5-7uJ5+6u",
    );
    show(
        b"a round of 2 points that no section leads to",
        1,
        2,
        1,
        b"P2d..J1s2sJ1+2+J1-2-",
    );
    show(b"a round of 2 points", 2, 2, 1, b"J1+2sJ2-1sJ1-1dJ2+2d");
    show(
        b"a round of 3 points",
        3,
        3,
        1,
        b"J1+2sJ2+3sJ3+1sJ1-1dJ2-2dJ3-3d",
    );
}

fn row8() {
    show(b"a start shared", 2, 0, 2, b"T111.T212.");
    show(b"a destination shared", 2, 0, 2, b"T111.T221.");
    show(
        b"a start shared by 1 and 4",
        4,
        0,
        4,
        b"T111.T222.T333.T414.",
    );
}

fn closed() {
    show(b"a start on a closed section", 3, 0, 1, b"X1...T112.");
    show(
        b"a destination on a closed section",
        3,
        0,
        2,
        b"X3...T111.T223.",
    );
}

fn together() {
    show(b"3 and 4", 49, 0, 1, b"J1u1s");
    show(b"4 and 5", 2, 0, 1, b"J1u2uG3d..");
    show(b"4 and 6", 2, 1, 1, b"T131.");
    show(b"5 and 6", 2, 1, 1, b"J1u2u");
    show(b"5 and 8", 2, 0, 2, b"T212.J1u2u");
    show(b"6 and 8", 2, 1, 2, b"T212.");
    show(b"3 and 8", 2, 17, 2, b"T212.");
    show(b"3 and 5", 49, 0, 1, b"J1u2u");
    show(b"3 and 6", 49, 1, 1, b"");
    show(b"4 and 8", 2, 0, 2, b"T131.T221.");
    show(b"4 and 8, closed", 2, 0, 1, b"X1...X3...");
    show(b"5 and 8, closed", 2, 0, 1, b"X1...J1u2u");
    show(b"3 and 16", 49, 0, 1, b"T1110");
    show(b"3 and 16, 5 trains", 4, 0, 5, b"T1110");
    show(b"16 and 4", 2, 0, 1, b"T1310");
    show(b"16 and 4, a join", 2, 0, 1, b"J1u1sT1110");
    show(b"16 and 5", 2, 0, 1, b"J1u2uT1110");
    show(b"16 and 6", 2, 1, 1, b"T1110");
    show(b"16 and 13", 1, 2, 1, b"P2d..J1s2sJ1+2+J1-2-T1110");
    show(b"16 and 8", 2, 0, 2, b"T111.T2120");
    show(b"3 and 13", 49, 2, 1, b"P2d..J1s2sJ1+2+J1-2-");
    show(b"4 and 13", 1, 2, 1, b"P2d..J1s2sJ1+2+J1-2-G2u..");
    show(b"5 and 13", 2, 2, 1, b"P2d..J1s2sJ1+2+J1-2-J1u2u");
    show(b"6 and 13", 1, 3, 1, b"P2d..J1s2sJ1+2+J1-2-");
    show(b"13 and 8", 1, 2, 2, b"P2d..J1s2sJ1+2+J1-2-");
    show(b"13 and 8, closed", 1, 2, 1, b"P2d..J1s2sJ1+2+J1-2-X1...");
}

fn main() {
    accepted();
    row3();
    row16();
    row4();
    row5();
    row6();
    row13();
    row8();
    closed();
    together();
}
