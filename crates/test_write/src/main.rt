// Records and what the writer makes of them, in buffers of several lengths that are filled with `#` before. For each: what it is and the answer,
// `bytes` or `refused` with a number; then the whole buffer as it was left, and a line end.
#![tactic(auto)]

use railway::{End, Leg, PointNo, Railway, Refusal, SectionNo, Side, Train};
use test_framing::STDOUT_FILENO;

fn show(label: &[u8], answer: Result<usize, Refusal>, buffer: &[u8]) {
    io::write_all(STDOUT_FILENO, label);
    match answer {
        Ok(n) => {
            io::write_all(STDOUT_FILENO, b"\tbytes\t");
            io::print_decimal(STDOUT_FILENO, n as u64);
        }
        Err(f) => {
            io::write_all(STDOUT_FILENO, b"\trefused\t");
            let n = f.number();
            io::print_decimal(STDOUT_FILENO, n as u64);
        }
    }
    io::write_all(STDOUT_FILENO, b"\n");
    io::write_all(STDOUT_FILENO, buffer);
    io::write_all(STDOUT_FILENO, b"\n");
}

fn counts(s: u8, p: u8, k: u8) -> Railway {
    let mut r = Railway::empty();
    r.sections = s;
    r.points = p;
    r.trains = k;
    r
}

fn up(n: u8) -> End {
    End::Section(SectionNo(n), Side::Up)
}

fn down(n: u8) -> End {
    End::Section(SectionNo(n), Side::Down)
}

fn port(n: u8, l: Leg) -> End {
    End::Port(PointNo(n), l)
}

fn train(heading: Side, from: u8, to: u8) -> Train {
    weighing(heading, from, to, 1)
}

fn weighing(heading: Side, from: u8, to: u8, weight: u8) -> Train {
    Train {
        heading: heading,
        start: SectionNo(from),
        destination: SectionNo(to),
        weight: weight,
    }
}

// Yard A, its joins and signals added last to first.
fn yard() -> Railway {
    let joined = counts(3, 1, 2)
        .with_legs(PointNo(0), Side::Down)
        .with_join(port(0, Leg::Stem), down(2))
        .with_join(port(0, Leg::Minus), up(1))
        .with_join(port(0, Leg::Plus), up(0));
    joined
        .with_signal(up(1))
        .with_signal(down(0))
        .with_train(1, train(Side::Down, 2, 0))
        .with_train(0, train(Side::Up, 1, 2))
}

// Two digits, a join of two sections, signals at both ends of one.
fn long_line() -> Railway {
    counts(12, 0, 1)
        .with_join(down(11), up(9))
        .with_join(down(1), up(0))
        .with_signal(up(10))
        .with_signal(down(10))
        .with_train(0, train(Side::Up, 9, 11))
}

// Two tracks and a crossover, its joins added last to first.
fn crossover() -> Railway {
    let crossed = counts(4, 2, 1)
        .with_legs(PointNo(1), Side::Down)
        .with_join(port(1, Leg::Minus), port(0, Leg::Minus))
        .with_join(port(1, Leg::Stem), down(3))
        .with_join(port(1, Leg::Plus), up(2));
    crossed
        .with_join(port(0, Leg::Plus), down(1))
        .with_join(port(0, Leg::Stem), up(0))
        .with_train(0, train(Side::Up, 0, 3))
}

// Two sections and two trains: the first has this weight, the second 1.
fn weighed(weight: u8) -> Railway {
    counts(2, 0, 2)
        .with_train(0, weighing(Side::Up, 0, 1, weight))
        .with_train(1, train(Side::Down, 1, 0))
}

// Two points that lead to each other.
fn round() -> Railway {
    counts(2, 2, 1)
        .with_join(port(0, Leg::Plus), port(1, Leg::Stem))
        .with_join(port(1, Leg::Plus), port(0, Leg::Stem))
        .with_join(port(0, Leg::Minus), down(0))
        .with_join(port(1, Leg::Minus), down(1))
}

fn room_to_spare() {
    let mut buffer: [u8; 72] = [b'#'; 72];
    let answer = case_writer::write_case(yard(), &mut buffer);
    show(b"yard A, room to spare", answer, &buffer);
}

fn just_room() {
    let mut buffer: [u8; 68] = [b'#'; 68];
    let answer = case_writer::write_case(yard(), &mut buffer);
    show(b"yard A, just room", answer, &buffer);
}

fn a_byte_short() {
    let mut buffer: [u8; 67] = [b'#'; 67];
    let answer = case_writer::write_case(yard(), &mut buffer);
    show(b"yard A, a byte short", answer, &buffer);
}

fn crossed() {
    let mut buffer: [u8; 72] = [b'#'; 72];
    let answer = case_writer::write_case(crossover(), &mut buffer);
    show(b"a crossover", answer, &buffer);
}

fn in_sixty(label: &[u8], r: Railway) {
    let mut buffer: [u8; 60] = [b'#'; 60];
    let answer = case_writer::write_case(r, &mut buffer);
    show(label, answer, &buffer);
}

fn main() {
    room_to_spare();
    just_room();
    a_byte_short();
    crossed();
    in_sixty(b"one section", counts(1, 0, 1));
    in_sixty(b"twelve sections", long_line());
    in_sixty(b"weights 7 and 1", weighed(7));
    in_sixty(b"weights 255 and 1", weighed(255));
    in_sixty(b"weights 1 and 1", weighed(1));
    in_sixty(b"weights 0 and 1", weighed(0));
    in_sixty(b"nothing", Railway::empty());
    in_sixty(b"a round", round());
    in_sixty(b"a loose port, and little room", counts(3, 16, 1));
}
