// Two logs compared, for case texts. Standard input is records (crate test_framing), three for each: a case text, the panel's log and that of the axle counters, an entry a line: a train and
// a section, by the document's numbers. For each it is told whether they agree, or which train differs, or the number of the refusal. Behind them come records that no case text is read
// as, with logs of several lengths.
#![tactic(auto)]

ghost use Rattle.std.specs.Prelude.{◌≤◌, take};
ghost use Rattle.logs.specs.Logs.{LogPost};

use logs::{Entry, Verdict};
use railway::{Railway, Refusal};
use test_framing::STDOUT_FILENO;

// One entry more than a log may have. Of a longer one those behind are left out, which no answer tells.
const SPACE: usize = 257;

// A number that no train and no section has, for those that are not there.
const NOWHERE: u8 = 255;

// A log as far as it has been read, with the train and the digits of the line that is being read.
#[derive(Clone, Copy)]
struct Log {
    entries: [Entry; SPACE],
    count: usize,
    train: u32,
    number: u32,
}

fn main() {
    for _ in 0..u64::MAX {
        let mut case = io::large_buffer();
        let mut panel = io::large_buffer();
        let mut axles = io::large_buffer();
        let texts = test_framing::next_triple(
            &mut case,
            &mut panel,
            &mut axles,
            b"no log of the panel\n",
            b"no log of the axle counters\n",
        );
        let (Some(n), Some(m), Some(k)) = texts else {
            break;
        };
        show(&case[..n], &panel[..m], &axles[..k]);
    }
    own_records();
}

// A round of two points gets 13 and a weight of 0 gets 16, also with a log that is too long; with both it is 16. A record without a fault is answered by its logs.
fn own_records() {
    let plain = record_of(0, 1);
    let round = record_of(2, 1);
    tell(round, many(0), many(0));
    tell(round, many(257), many(3));
    tell(record_of(0, 0), many(0), many(0));
    tell(record_of(0, 0), many(3), many(257));
    tell(record_of(2, 0), many(0), many(0));
    tell(plain, many(0), many(0));
    tell(plain, many(256), many(256));
    tell(plain, many(256), many(255));
    tell(plain, many(257), many(257));
    tell(plain, many(0), many(257));
}

// One section, and a train on it with a weight; two points, if there are any, in a round.
fn record_of(points: u8, weight: u8) -> Railway {
    let r = test_framing::one_train(1, points, 0, weight);
    if points == 0 {
        return r;
    }
    test_framing::in_round(r)
}

// A log of so many entries, all the same.
fn many(n: usize) -> Log {
    Log {
        entries: [Entry {
            train: 0,
            section: 0,
        }; SPACE],
        count: n,
        train: 0,
        number: 0,
    }
}

fn show(case: &[u8], panel: &[u8], axles: &[u8]) {
    match case_reader::read_case(case) {
        Err(f) => refused(f),
        Ok(r) => {
            let a = log_of(panel);
            let b = log_of(axles);
            tell(r, a, b);
        }
    }
}

// A log, byte by byte.
fn log_of(text: &[u8]) -> Log {
    let mut log = many(0);
    for i in 0..text.len() {
        log = with_byte(log, text[i]);
    }
    log
}

// One byte more: a digit, the tab behind a train, or the end of a line.
fn with_byte(log: Log, b: u8) -> Log {
    let entries = log.entries;
    if b == b'\n' {
        return with_entry(log);
    }
    if b < b'0' {
        return Log {
            entries: entries,
            count: log.count,
            train: log.number,
            number: 0,
        };
    }
    Log {
        entries: entries,
        count: log.count,
        train: log.train,
        number: (log.number % 1000) * 10 + (b - b'0') as u32,
    }
}

// The entry whose line has been read, if there is room for it.
fn with_entry(log: Log) -> Log {
    let mut entries = log.entries;
    let i = log.count;
    if i < SPACE {
        entries[i] = Entry {
            train: place_of(log.train),
            section: place_of(log.number),
        };
        return Log {
            entries: entries,
            count: i + 1,
            train: 0,
            number: 0,
        };
    }
    log
}

// A train or a section by its number in the document.
fn place_of(n: u32) -> u8 {
    if n == 0 {
        return NOWHERE;
    }
    if 255 < n {
        return NOWHERE;
    }
    (n - 1) as u8
}

// What the comparison answers.
fn tell(r: Railway, a: Log, b: Log) {
    match compared(r, a, b) {
        Ok(Verdict::Agree) => {
            io::write_all(STDOUT_FILENO, b"agree\n");
        }
        Ok(Verdict::Differ(t)) => {
            io::write_all(STDOUT_FILENO, b"differ\t");
            io::print_decimal(STDOUT_FILENO, t as u64 + 1);
            io::write_all(STDOUT_FILENO, b"\n");
        }
        Err(f) => refused(f),
    }
}

fn compared(r: Railway, a: Log, b: Log) -> Result<Verdict, Refusal> {
    let panel = a.entries;
    let axles = b.entries;
    lend(r, panel, at_most(a.count), axles, at_most(b.count))
}

fn at_most(n: usize) -> usize
    ensures { result ≤ 257 }
{
    if n < SPACE { n } else { SPACE }
}

// The call, with the first entries of two arrays.
fn lend(
    r: Railway,
    panel: [Entry; SPACE],
    n: usize,
    axles: [Entry; SPACE],
    m: usize,
) -> Result<Verdict, Refusal>
    requires { (n ≤ 257) × (m ≤ 257) }
    ensures { LogPost r (take n panel) (take m axles) result }
{
    logs_judge::compare(r, &panel[..n], &axles[..m])
}

fn refused(f: Refusal) {
    io::write_all(STDOUT_FILENO, b"refused\t");
    io::print_decimal(STDOUT_FILENO, f.number() as u64);
    io::write_all(STDOUT_FILENO, b"\n");
}
