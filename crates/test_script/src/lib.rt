// A script of calls at a desk, a line a command, for programs that run outside vectors. Kept are the present case, the solver's tables of it and of a new one, how many entries of
// them are lent (at first as many as there are placements; none, where the solver fills none) and the present desk. Commands: `o` opens a desk; `s` asks for its setting; `r`, train,
// section: a report; `c`: a change to the new case, which is then the present one with its tables; `d`, a section for each train, a code, a number of trains: the present desk; `l`, n,
// and `n`, n: so many entries of the present tables, or of the new ones, are lent from here on; `f`, code, figure, setting: written into the present tables. Of these `o`, `s`, `r` and
// `c` are answered, a line each, and the desk behind the call is the present one.
#![tactic(auto)]

ghost use Rattle.std.specs.Prelude.{◌≡◌, true, false};
ghost use Rattle.io.specs.Counts.{IsPrefixLen};
ghost use Rattle.case_reader.specs.Answers.{ByCase};

use desk_calls::Desk;
use game_placement::Placement;
use railway::{Railway, Refusal};
use test_framing::STDOUT_FILENO;

// As many entries have the tables.
const ENTRIES: usize = 1024;

// The fields of a command, its letter's included, at most.
const FIELDS: u8 = 7;

// A number that no train and no section has, for those that are not there.
const NOWHERE: u8 = 255;

// A command as far as its line has been read: its letter, which is field 0; the numbers in the fields behind it; the field that is read.
#[derive(Clone, Copy)]
struct Command {
    letter: u8,
    numbers: [u32; FIELDS as usize],
    field: u8,
}

// What is kept from command to command beside the tables: the present case, whether it is the new one, the present desk, and how many entries of the present tables and of the new
// ones are lent.
#[derive(Clone, Copy)]
struct Kept {
    railway: Railway,
    over: bool,
    desk: Desk,
    lent: usize,
    lent_next: usize,
}

// The whole script, if the case text is accepted, and whether it is. The new case's text may be any.
pub fn run_script(case: &[u8], next: &[u8], script: &[u8]) -> bool
    ensures { ByCase case.now (λ f. result ≡ false) (λ r. result ≡ true) }
{
    match case_reader::read_case(case) {
        Err(_) => false,
        Ok(r) => {
            begin(r, next, script);
            true
        }
    }
}

// Both cases, with tables of their own. The solver refuses the empty record.
fn begin(r: Railway, next: &[u8], script: &[u8]) {
    let mut figures = [0u32; ENTRIES];
    let mut settings = [0u32; ENTRIES];
    let mut next_figures = [0u32; ENTRIES];
    let mut next_settings = [0u32; ENTRIES];
    let s = railway_of(next);
    let lent = fill(r, &mut figures, &mut settings);
    let lent_next = fill(s, &mut next_figures, &mut next_settings);
    let kept = Kept {
        railway: r,
        over: false,
        desk: Desk::nowhere(),
        lent: lent,
        lent_next: lent_next,
    };
    run(
        kept,
        next,
        script,
        &mut figures,
        &mut settings,
        &mut next_figures,
        &mut next_settings,
    );
}

// The railway of a case text; of one that is refused the empty record.
fn railway_of(text: &[u8]) -> Railway {
    match case_reader::read_case(text) {
        Ok(r) => r,
        Err(_) => Railway::empty(),
    }
}

// The solver's tables, and how many placements the case has; 0, where it is refused.
fn fill(r: Railway, figures: &mut [u32], settings: &mut [u32]) -> usize {
    if let Err(_) = solver::solve(r, figures, settings) {
        return 0;
    }
    match railway_compiled::compile(r) {
        Ok(table) => game_moves::placements(&table) as usize,
        Err(_) => 0,
    }
}

// Every command, byte by byte.
fn run(
    begun: Kept,
    next: &[u8],
    script: &[u8],
    figures: &mut [u32],
    settings: &mut [u32],
    next_figures: &mut [u32],
    next_settings: &mut [u32],
) {
    let mut kept = begun;
    let mut command = fresh();
    for b in script {
        kept = turn(
            kept,
            command,
            *b,
            next,
            figures,
            settings,
            next_figures,
            next_settings,
        );
        command = with_byte(command, *b);
    }
}

// At a line's end its command is obeyed: a change, with the new tables, or one with the present ones.
fn turn(
    kept: Kept,
    c: Command,
    b: u8,
    next: &[u8],
    figures: &mut [u32],
    settings: &mut [u32],
    next_figures: &mut [u32],
    next_settings: &mut [u32],
) -> Kept {
    let letter = c.letter;
    if b != b'\n' {
        return kept;
    }
    if letter == b'c' {
        return change(kept, next, next_figures, next_settings);
    }
    if kept.over {
        return call(kept, c, next_figures, next_settings);
    }
    call(kept, c, figures, settings)
}

// A line of which nothing has been read.
fn fresh() -> Command {
    Command {
        letter: 0,
        numbers: [0u32; FIELDS as usize],
        field: 0,
    }
}

// One byte more: a line's end, the tab before a field, a digit, or the letter.
fn with_byte(c: Command, b: u8) -> Command {
    let mut numbers = c.numbers;
    let field = c.field;
    if b == b'\n' {
        return fresh();
    }
    if b == b'\t' {
        return Command {
            letter: c.letter,
            numbers: numbers,
            field: next_field(field),
        };
    }
    if b < b'0' {
        return c;
    }
    if b'9' < b {
        return Command {
            letter: b,
            numbers: numbers,
            field: field,
        };
    }
    if field < FIELDS {
        let at = field as usize;
        numbers[at] = with_digit(numbers[at], b - b'0');
    }
    Command {
        letter: c.letter,
        numbers: numbers,
        field: field,
    }
}

// The field behind this one; the numbers in those past the last are lost.
fn next_field(field: u8) -> u8 {
    if field < FIELDS { field + 1 } else { field }
}

// A number and one digit more; of one that does not fit what is left of it.
fn with_digit(n: u32, digit: u8) -> u32 {
    let more = (n as u64) * 10 + (digit as u64);
    (more % 4294967296) as u32
}

// What is kept, with another desk.
fn with_desk(kept: Kept, desk: Desk) -> Kept {
    Kept { desk, ..kept }
}

// A change to the new case.
fn change(kept: Kept, next: &[u8], figures: &[u32], settings: &[u32]) -> Kept {
    let a = least(kept.lent_next, figures);
    let b = least(kept.lent_next, settings);
    let mut desk = kept.desk;
    match desk.change(kept.railway, next, &figures[..a], &settings[..b]) {
        Ok(()) => gone_over(kept, next, desk),
        Err(f) => {
            refusal(f);
            with_desk(kept, desk)
        }
    }
}

// The new case and its tables are the present ones.
fn gone_over(kept: Kept, next: &[u8], desk: Desk) -> Kept {
    let s = railway_of(next);
    stands(desk, s.trains);
    Kept {
        railway: s,
        over: true,
        desk: desk,
        lent: kept.lent_next,
        lent_next: kept.lent_next,
    }
}

// A command with the present tables.
fn call(kept: Kept, c: Command, figures: &mut [u32], settings: &mut [u32]) -> Kept {
    let n = c.numbers;
    let letter = c.letter;
    let mut k = kept;
    if letter == b'l' {
        k.lent = n[1] as usize;
        return k;
    }
    if letter == b'n' {
        k.lent_next = n[1] as usize;
        return k;
    }
    if letter == b'f' {
        write(figures, n[1], n[2]);
        write(settings, n[1], n[3]);
        return kept;
    }
    let desk = lend(kept, c, figures, settings);
    with_desk(kept, desk)
}

// An entry, if the table has it.
fn write(entries: &mut [u32], p: u32, entry: u32) {
    let at = p as usize;
    if at < entries.len() {
        entries[at] = entry;
    }
}

// A command at the present desk: so many entries of the tables are lent, as far as there are.
fn lend(kept: Kept, c: Command, figures: &[u32], settings: &[u32]) -> Desk {
    let a = least(kept.lent, figures);
    let b = least(kept.lent, settings);
    at_desk(kept.desk, c, kept.railway, &figures[..a], &settings[..b])
}

fn least(n: usize, entries: &[u32]) -> usize
    ensures { IsPrefixLen result entries.now }
{
    if n < entries.len() { n } else { entries.len() }
}

// The command, by its letter: the next desk.
fn at_desk(desk: Desk, c: Command, r: Railway, figures: &[u32], settings: &[u32]) -> Desk {
    let n = c.numbers;
    let letter = c.letter;
    if letter == b'o' {
        return open(r, figures, settings);
    }
    if letter == b's' {
        setting(desk, r, figures, settings);
        return desk;
    }
    if letter == b'r' {
        return report(desk, r, figures, settings, number_of(n[1]), number_of(n[2]));
    }
    if letter == b'd' {
        return desk_of(c, r.trains);
    }
    desk
}

// A train or a section by its number in the document.
fn number_of(n: u32) -> u8 {
    if n == 0 {
        return NOWHERE;
    }
    if 255 < n {
        return NOWHERE;
    }
    (n - 1) as u8
}

// The desk of a command with the sections of k trains: behind them stand its code and its number of trains on their destinations.
fn desk_of(c: Command, k: u8) -> Desk {
    let sections = [
        section_of(c, k, 0),
        section_of(c, k, 1),
        section_of(c, k, 2),
        section_of(c, k, 3),
    ];
    Desk {
        at: Placement { sections: sections },
        code: field_of(c, k as usize + 1),
        arrived: byte_of(field_of(c, k as usize + 2)),
    }
}

fn section_of(c: Command, k: u8, t: u8) -> u8 {
    if t < k {
        number_of(field_of(c, t as usize + 1))
    } else {
        NOWHERE
    }
}

// The number in a field; 0, where it is not kept.
fn field_of(c: Command, at: usize) -> u32 {
    let n = c.numbers;
    if at < n.len() { n[at] } else { 0 }
}

fn byte_of(n: u32) -> u8 {
    if n < 255 { n as u8 } else { 255 }
}

// The desk that is opened; where none is, one that stands nowhere.
fn open(r: Railway, figures: &[u32], settings: &[u32]) -> Desk {
    match Desk::open(r, figures, settings) {
        Ok(Some(desk)) => {
            stands(desk, r.trains);
            desk
        }
        Ok(None) => {
            io::write_all(STDOUT_FILENO, b"none\n");
            Desk::nowhere()
        }
        Err(f) => {
            refusal(f);
            Desk::nowhere()
        }
    }
}

fn setting(desk: Desk, r: Railway, figures: &[u32], settings: &[u32]) {
    match desk.setting(r, figures, settings) {
        Ok(v) => {
            io::write_all(STDOUT_FILENO, b"setting");
            number(v);
            line_end();
        }
        Err(f) => refusal(f),
    }
}

fn report(desk: Desk, r: Railway, figures: &[u32], settings: &[u32], t: u8, x: u8) -> Desk {
    let (next, answer) = desk.report(r, figures, settings, t, x);
    match answer {
        Ok(()) => stands(next, r.trains),
        Err(f) => refusal(f),
    }
    next
}

// A desk: the section of each train, the code and the number that it carries.
fn stands(desk: Desk, trains: u8) {
    let at = desk.at;
    io::write_all(STDOUT_FILENO, b"desk");
    for t in 0..trains {
        number(game_placement::section_at(at, t) as u32 + 1);
    }
    number(desk.code);
    number(desk.arrived as u32);
    line_end();
}

fn refusal(f: Refusal) {
    io::write_all(STDOUT_FILENO, b"refused");
    number(f.number() as u32);
    line_end();
}

// A number, behind a tab.
fn number(n: u32) {
    io::write_all(STDOUT_FILENO, b"\t");
    io::print_decimal(STDOUT_FILENO, n as u64);
}

fn line_end() {
    io::write_all(STDOUT_FILENO, b"\n");
}
