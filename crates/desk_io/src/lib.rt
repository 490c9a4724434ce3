// What program deskrun does. The case is that of file case.txt in the working folder; it is solved, and a desk opened. On standard output a line for the opening, and then one for each
// line of standard input: the state that a report leads to, or that it is refused, with the desk as it was. A line may
// also name a file with another case; that is solved, too, and the desk goes over to it, or it is refused, and work
// goes on as before. Each is written before the next line is read. Behind `home`, behind an opening that is refused or
// has no figure, and at the end of the input it stops.
#![tactic(auto)]

ghost use Rattle.std.specs.Prelude.{◌≡◌, true, suc, ◌≤◌, length, IfSome};
ghost use Rattle.std.proofs.Math.Option.{get_or};
ghost use Rattle.io.specs.Counts.{IsPrefixLen};
ghost use Rattle.case_file.specs.Rows.{most_bytes};
ghost use Rattle.case_file.specs.Writing.{written_count};
ghost use Rattle.game_tables.specs.Lengths.{entries};
ghost use Rattle.answer_lines.specs.Lines.{refusal_line};
ghost use Rattle.desk_calls.specs.Answers.{desk_at};
ghost use Rattle.desk_text.specs.Said.{state_said, opening_said, line_said};
ghost use Rattle.desk_lines.specs.Changes.{is_change};
ghost use Rattle.desk_io.specs.Session.{panel_of, heard_at};
ghost use Rattle.desk_io.specs.Followed.{Wrote, NewCase, Turned, Ran, Solved, CaseFollowed, Followed};

use desk_calls::Desk;
use desk_lines::{INPUT, LINE, NAME};
use desk_text::Step;
use game_tables::ENTRIES;
use railway::{Railway, Refusal};
use text::{LINE_END, append};

// The descriptor of standard input.
const STDIN_FILENO: i32 = 0;

// One byte more than a case text may have: so many bytes decide what is written (`CutFollows` in specs/Followed).
const CASE: usize = case_file::MOST_BYTES + 1;

// More lines than can come; what is written for so many is counted in 64 bits.
const TURNS: usize = 72057594037927936;

// How many bytes were written for an opening or for a line, the case and the desk behind it, and whether lines are read from there on.
#[derive(Clone, Copy)]
struct Stand {
    railway: Railway,
    desk: Desk,
    bytes: usize,
    going: bool,
}

// The answer is how many bytes there are to be written.
pub fn write_desk(rt: &HostRuntime) -> usize
    ensures { Followed result }
{
    let mut case = [0u8; CASE];
    follow_file(rt, &mut case)
}

// Reads the case into a buffer for all bytes that decide. A file that is not there cannot be read, and is an empty text.
fn follow_file(rt: &HostRuntime, case: &mut [u8]) -> usize
    requires { length case.old ≡ suc most_bytes }
    ensures { Followed result }
{
    let came = file_input::read_file(rt, "case.txt", case);
    follow_case(rt, &case[..came])
}

// A case text: refused by the reader, or read.
fn follow_case(rt: &HostRuntime, case: &[u8]) -> usize
    ensures { CaseFollowed case.now result }
{
    match case_reader::read_case(case) {
        Err(f) => write_refusal(f),
        Ok(r) => follow_railway(rt, r),
    }
}

fn write_refusal(f: Refusal) -> usize
    ensures { result ≡ length (refusal_line f) }
{
    let mut out = [0u8; LINE];
    let put = answer_lines::refusal_line(f, &mut out);
    answer_output::front(&out, put);
    bytes_put(put)
}

// A railway, with tables of its own.
fn follow_railway(rt: &HostRuntime, r: Railway) -> usize
    ensures { Solved r result }
{
    let mut figures = [0u32; ENTRIES];
    let mut settings = [0u32; ENTRIES];
    let _ = solver::solve(r, &mut figures, &mut settings);
    follow_plan(rt, r, &mut figures, &mut settings)
}

// The desk, from its opening on. The tables are those of the case that it follows.
fn follow_plan(rt: &HostRuntime, r: Railway, figures: &mut [u32], settings: &mut [u32]) -> usize
    requires { (length figures.old ≡ entries) × (length settings.old ≡ entries) }
    ensures { Ran r figures.old settings.old result }
{
    let start = open(r, figures, settings);
    let mut railway = r;
    let mut desk = start.desk;
    let mut bytes = start.bytes;
    let mut going = start.going;
    let mut turns: usize = 0;
    while going {
        if TURNS <= turns {
            return bytes;
        }
        let next = turn(rt, desk, railway, figures, settings);
        railway = next.railway;
        desk = next.desk;
        bytes += next.bytes;
        going = next.going;
        turns += 1;
    }
    bytes
}

// The opening.
fn open(r: Railway, figures: &[u32], settings: &[u32]) -> Stand
    ensures { Wrote (heard_at r figures.now settings.now
        (opening_said r figures.now settings.now))
        (panel_of r figures.now settings.now (desk_at result.desk)) result.bytes result.going }
{
    let mut out = [0u8; LINE];
    let step = desk_text::open_text(r, figures, settings, &mut out);
    write(r, step, &out)
}

// The next line, or as many of its bytes as decide what it is. At the end of the input nothing is written.
fn turn(
    rt: &HostRuntime,
    desk: Desk,
    r: Railway,
    figures: &mut [u32],
    settings: &mut [u32],
) -> Stand
    requires { (length figures.old ≡ entries) × (length settings.old ≡ entries) }
    ensures { Turned (panel_of r figures.old settings.old (desk_at desk))
        (panel_of result.railway figures.new settings.new (desk_at result.desk)) result.bytes result.going }
{
    let mut line = [0u8; INPUT];
    let Some(n) = next_line(&mut line) else {
        return Stand {
            railway: r,
            desk,
            bytes: 0,
            going: false,
        };
    };
    hear(rt, desk, &line[..n], r, figures, settings)
}

// A line that came: a change, or what is taken for a report.
fn hear(
    rt: &HostRuntime,
    desk: Desk,
    line: &[u8],
    r: Railway,
    figures: &mut [u32],
    settings: &mut [u32],
) -> Stand
    requires { (length figures.old ≡ entries) × (length settings.old ≡ entries) }
    ensures { Turned (panel_of r figures.old settings.old (desk_at desk))
        (panel_of result.railway figures.new settings.new (desk_at result.desk)) result.bytes result.going }
{
    if desk_lines::is_change(line) {
        return change_file(rt, desk, line, r, figures, settings);
    }
    answer(desk, line, r, figures, settings)
}

// A report, or a line that is none.
fn answer(desk: Desk, line: &[u8], r: Railway, figures: &[u32], settings: &[u32]) -> Stand
    ensures { Wrote (heard_at r figures.now settings.now
        (line_said r figures.now settings.now (desk_at desk) line.now))
        (panel_of result.railway figures.now settings.now (desk_at result.desk))
        result.bytes result.going }
{
    let mut out = [0u8; LINE];
    let step = desk_text::line_text(desk, line, r, figures, settings, &mut out);
    write(r, step, &out)
}

// The state where a desk stands.
fn tell(desk: Desk, r: Railway, figures: &[u32], settings: &[u32]) -> Stand
    ensures { Wrote (heard_at r figures.now settings.now
        (state_said r figures.now settings.now (desk_at desk)))
        (panel_of result.railway figures.now settings.now (desk_at result.desk))
        result.bytes result.going }
{
    let mut out = [0u8; LINE];
    let step = desk_text::state_text(desk, r, figures, settings, &mut out);
    write(r, step, &out)
}

// What was put, on standard output.
fn write(r: Railway, step: Step, out: &[u8]) -> Stand
    ensures { (result.desk ≡ step.desk) × (result.bytes ≡ get_or (written_count step.put) 0) × (result.going ≡ step.going) × (result.railway ≡ r) }
{
    answer_output::front(out, step.put);
    Stand {
        railway: r,
        desk: step.desk,
        bytes: bytes_put(step.put),
        going: step.going,
    }
}

// How many bytes were put; none where they found no room.
fn bytes_put(put: Result<usize, Refusal>) -> usize
    ensures { result ≡ get_or (written_count put) 0 }
{
    put.unwrap_or(0)
}

// A CHANGE: the file that a line names is read, as the first case was.
fn change_file(
    rt: &HostRuntime,
    desk: Desk,
    line: &[u8],
    r: Railway,
    figures: &mut [u32],
    settings: &mut [u32],
) -> Stand
    requires { (length figures.old ≡ entries) × (length settings.old ≡ entries) }
    ensures { is_change line.now ≡ true
        → Turned (panel_of r figures.old settings.old (desk_at desk))
        (panel_of result.railway figures.new settings.new (desk_at result.desk))
        result.bytes result.going }
{
    let mut text = [0u8; CASE];
    let came = read_named(rt, line, &mut text);
    change_text(desk, &text[..came], r, figures, settings)
}

// The file's name stands behind the word and its tab. Bytes that are no UTF-8 name none.
fn read_named(rt: &HostRuntime, line: &[u8], text: &mut [u8]) -> usize
    ensures { IsPrefixLen result text.new }
{
    match str::from_utf8(name_of(line)) {
        Ok(name) => file_input::read_file(rt, name, text),
        Err(_) => 0,
    }
}

fn name_of(line: &[u8]) -> &[u8] {
    let n = line.len();
    if n < NAME {
        return line;
    }
    &line[NAME..n]
}

// Its text: read, and solved in tables of its own. Where the text is refused there is an empty record in place of the railway, for which nothing is solved.
fn change_text(
    desk: Desk,
    text: &[u8],
    r: Railway,
    figures: &mut [u32],
    settings: &mut [u32],
) -> Stand
    requires { (length figures.old ≡ entries) × (length settings.old ≡ entries) }
    ensures { NewCase text.now (panel_of r figures.old settings.old (desk_at desk))
        (panel_of result.railway figures.new settings.new (desk_at result.desk)) result.bytes result.going }
{
    let mut next_figures = [0u32; ENTRIES];
    let mut next_settings = [0u32; ENTRIES];
    let s = case_reader::read_case(text).unwrap_or(Railway::empty());
    let _ = solver::solve(s, &mut next_figures, &mut next_settings);
    let mut next = desk;
    match next.change(r, text, &next_figures, &next_settings) {
        Ok(()) => {
            figures.copy_from_slice(&next_figures);
            settings.copy_from_slice(&next_settings);
            tell(next, s, figures, settings)
        }
        Err(f) => refuse(next, r, f),
    }
}

// A change that is refused: the case is the old one.
fn refuse(desk: Desk, r: Railway, f: Refusal) -> Stand
    ensures { (result.railway ≡ r) × (result.desk ≡ desk) × (result.bytes ≡ length (refusal_line f)) × (result.going ≡ true) }
{
    Stand {
        railway: r,
        desk,
        bytes: write_refusal(f),
        going: true,
    }
}

// A LINE of standard input without its end, at the front of a lent buffer: how many bytes of it stand there; what finds no room is lost. None where the input
// ends before the line does. It is read byte by byte, so that nothing behind it is waited for.
fn next_line(line: &mut [u8]) -> Option<usize>
    ensures { IfSome result (λ n. IsPrefixLen n line.new) }
{
    let mut n: usize = 0;
    for _i in 0..u64::MAX {
        let b = next_byte()?;
        if b == LINE_END {
            return Some(n);
        }
        n = append::byte(line, n, b);
    }
    None
}

// A byte of standard input, if one comes.
fn next_byte() -> Option<u8> {
    let mut byte = [0u8; 1];
    if io::read_full(STDIN_FILENO, &mut byte) == 1 {
        Some(byte[0])
    } else {
        None
    }
}
