// What programs that run vectors share. The records of a vector file, from standard input: a line `@`, tab, the number of bytes in decimal, and then those bytes, of any value. A record
// comes whole or not at all: one that is longer than the lent space, one that ends early and a line of another form are told as broken. The programs have the spaces and the turns themselves:
// a function that took what it is to call would have to ask that of its caller, and could promise nothing. And small railways that no case text is read as.
#![tactic(auto)]

ghost use Rattle.std.specs.Prelude.{◌≡◌, None};
ghost use Rattle.io.specs.Counts.{IsPrefixLen};
ghost use Rattle.test_framing.specs.Framed.{bytes_of, length_of, record_of, Kept, KeptText};
ghost use Rattle.test_framing.specs.Made.{one_train, join_ports, in_round};

use railway::{End, Leg, PointNo, Railway, SectionNo, Side, Train};

// The descriptor of standard input.
const STDIN_FILENO: i32 = 0;

// The descriptor of standard output.
pub const STDOUT_FILENO: i32 = 1;

// A record that is longer than the lent space, one that ends early, or a line before it of another form.
#[derive(Clone, Copy)]
pub struct Broken;

// The most bytes of that number, its line end included.
const MOST_BYTES: u8 = 8;

// No number of so few digits reaches it: the prover sees by it that one more digit fits into the type.
const BEYOND: usize = 10000000;

// The next record as a text, at the start of the lent space: of so many bytes. That one is broken is told on standard output.
pub fn next_text(space: &mut [u8]) -> Option<usize>
    ensures prefix_len { IsPrefixLen (bytes_of result) space.new }
    ensures kept_text { KeptText result space.old space.new }
{
    match next_record(space) {
        Ok(record) => record,
        Err(Broken) => {
            io::write_all(STDOUT_FILENO, b"broken record\n");
            None
        }
    }
}

// The record that belongs to the one before it. Where it is missing that is told, in the caller's words; behind a text that is not there nothing is read.
pub fn text_behind(before: Option<usize>, space: &mut [u8], missing: &[u8]) -> Option<usize>
    ensures prefix_len { IsPrefixLen (bytes_of result) space.new }
    ensures kept_text { KeptText result space.old space.new }
    ensures there_value { before ≡ None → (result ≡ None) × (space.new ≡ space.old) }
{
    before?;
    let text = next_text(space);
    if text.is_none() {
        io::write_all(STDOUT_FILENO, missing);
    }
    text
}

// The next two records as texts, each at the start of a space of its own. Where the second is missing that is told, in the caller's words; behind a first that is not there nothing is read.
pub fn next_pair(
    first: &mut [u8],
    second: &mut [u8],
    missing: &[u8],
) -> (Option<usize>, Option<usize>)
    ensures first_prefix_len { IsPrefixLen (bytes_of result.0) first.new }
    ensures first_kept_text { KeptText result.0 first.old first.new }
    ensures second_prefix_len { IsPrefixLen (bytes_of result.1) second.new }
    ensures second_kept_text { KeptText result.1 second.old second.new }
    ensures there_value { result.0 ≡ None → (result.1 ≡ None) × (second.new ≡ second.old) }
{
    let one = next_text(first);
    let two = text_behind(one, second, missing);
    (one, two)
}

// The next three records, likewise.
pub fn next_triple(
    first: &mut [u8],
    second: &mut [u8],
    third: &mut [u8],
    no_second: &[u8],
    no_third: &[u8],
) -> (Option<usize>, Option<usize>, Option<usize>)
    ensures first_prefix_len { IsPrefixLen (bytes_of result.0) first.new }
    ensures first_kept_text { KeptText result.0 first.old first.new }
    ensures second_prefix_len { IsPrefixLen (bytes_of result.1) second.new }
    ensures second_kept_text { KeptText result.1 second.old second.new }
    ensures third_prefix_len { IsPrefixLen (bytes_of result.2) third.new }
    ensures third_kept_text { KeptText result.2 third.old third.new }
    ensures second_there { result.0 ≡ None → (result.1 ≡ None) × (second.new ≡ second.old) }
    ensures third_there { result.1 ≡ None → (result.2 ≡ None) × (third.new ≡ third.old) }
{
    let (one, two) = next_pair(first, second, no_second);
    let three = text_behind(two, third, no_third);
    (one, two, three)
}

// The next record, at the start of the lent space: of so many bytes, or none where the input has ended.
fn next_record(space: &mut [u8]) -> Result<Option<usize>, Broken>
    ensures prefix_len { IsPrefixLen (length_of result) space.new }
    ensures kept { Kept result space.old space.new }
{
    let Some(n) = head_line()? else {
        return Ok(None);
    };
    fill(space, n)
}

fn fill(space: &mut [u8], n: usize) -> Result<Option<usize>, Broken>
    ensures prefix_len { IsPrefixLen (length_of result) space.new }
    ensures kept { Kept result space.old space.new }
{
    if space.len() < n {
        return Err(Broken);
    }
    let got = io::read_full(STDIN_FILENO, &mut space[..n]);
    record_of(n, got)
}

// A record of n bytes of which so many came: whole if all did.
fn record_of(n: usize, got: usize) -> Result<Option<usize>, Broken>
    ensures { result ≡ record_of n got }
{
    if got == n { Ok(Some(n)) } else { Err(Broken) }
}

// The number of bytes that stands in the line before a record.
fn head_line() -> Result<Option<usize>, Broken> {
    let Some(first) = next_byte() else {
        return Ok(None);
    };
    let second = next_byte().ok_or(Broken)?;
    if first == b'@' && second == b'\t' {
        Ok(Some(number()?))
    } else {
        Err(Broken)
    }
}

fn number() -> Result<usize, Broken> {
    let mut n: usize = 0;
    for i in 0..MOST_BYTES {
        let b = next_byte().ok_or(Broken)?;
        if b == b'\n' && 0 < i {
            return Ok(n);
        }
        if BEYOND <= n || !b.is_ascii_digit() {
            return Err(Broken);
        }
        n = n * 10 + (b - b'0') as usize;
    }
    Err(Broken)
}

fn next_byte() -> Option<u8> {
    let mut byte = [0u8; 1];
    if io::read_full(STDIN_FILENO, &mut byte) == 1 {
        Some(byte[0])
    } else {
        None
    }
}

// A RAILWAY without joins, and on its first section a train that goes up, with a destination and a weight.
pub fn one_train(sections: u8, points: u8, destination: u8, weight: u8) -> Railway
    ensures { result ≡ one_train sections points destination weight }
{
    let mut r = Railway::empty();
    r.sections = sections;
    r.points = points;
    r.trains = 1;
    let train = Train {
        heading: Side::Up,
        start: SectionNo(0),
        destination: SectionNo(destination),
        weight: weight,
    };
    r.with_train(0, train)
}

// The first two points in a round: each port of the one is joined to the same port of the other.
pub fn in_round(r: Railway) -> Railway
    ensures { result ≡ in_round r }
{
    let legs = r.with_legs(PointNo(1), Side::Down);
    let stems = join_ports(legs, Leg::Stem);
    let pluses = join_ports(stems, Leg::Plus);
    join_ports(pluses, Leg::Minus)
}

// The same port of the first two points, joined.
fn join_ports(r: Railway, leg: Leg) -> Railway
    ensures { result ≡ join_ports leg r }
{
    r.with_join(End::Port(PointNo(0), leg), End::Port(PointNo(1), leg))
}
