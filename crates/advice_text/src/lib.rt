// What program advise writes for a case text, put into a lent buffer: that no signal is needed, the section end where
// one would help, that none does, or the line of a refusal. It stands whole at the front of the buffer, or finds no
// room and is refused for that, and the buffer is as it was.
#![tactic(auto)]

ghost use Rattle.std.specs.Prelude.{◌≡◌, Ok};
ghost use Rattle.text.specs.Appending.{Appended};
ghost use Rattle.case_file.specs.Form.{side_byte};
ghost use Rattle.answer_lines.specs.Lines.{PutPost, Puts};
ghost use Rattle.advice_text.specs.Lines.{end_line, advice_line, RailwayAdvice, CaseAdvice, advice_bytes};

use advice::Help;
use game_tables::ENTRIES;
use railway::{Railway, Refusal, SectionNo, Side};
use text::{LINE_END, append};

// Room for every line.
pub const LINE: usize = 24;

// A case text: refused by the reader, or read and then tried.
pub fn case_advice(case: &[u8], text: &mut [u8]) -> Result<usize, Refusal>
    ensures { Puts (CaseAdvice case.now) advice_bytes text.old result text.new }
{
    match case_reader::read_case(case) {
        Err(f) => answer_lines::refusal_line(f, text),
        Ok(r) => railway_advice(r, text),
    }
}

// A railway: the line for what is advised, with tables of the call's own.
fn railway_advice(r: Railway, text: &mut [u8]) -> Result<usize, Refusal>
    ensures { Puts (RailwayAdvice r) advice_bytes text.old result text.new }
{
    let mut figures = [0u32; ENTRIES];
    let mut settings = [0u32; ENTRIES];
    let a = advice_call::advise(r, &mut figures, &mut settings);
    advice_line(a, text)
}

// The line for an answer.
pub fn advice_line(a: Result<Help, Refusal>, text: &mut [u8]) -> Result<usize, Refusal>
    ensures { PutPost (advice_line a) text.old result text.new }
{
    match a {
        Ok(help) => help_line(help, text),
        Err(f) => answer_lines::refusal_line(f, text),
    }
}

// The line for what is advised.
fn help_line(help: Help, text: &mut [u8]) -> Result<usize, Refusal>
    ensures { PutPost (advice_line (Ok help)) text.old result text.new }
{
    match help {
        Help::NotNeeded => answer_lines::put(b"no signal needed\n", text),
        Help::Signal(n, s) => end_line(n, s, text),
        Help::NoneHelps => answer_lines::put(b"no single signal helps\n", text),
    }
}

// A section end, made in a buffer of the call's own and put from there.
fn end_line(n: SectionNo, s: Side, text: &mut [u8]) -> Result<usize, Refusal>
    ensures { PutPost (end_line n s) text.old result text.new }
{
    let mut line = [0u8; LINE];
    let m = spell_end(&mut line, n, s);
    answer_lines::put(&line[..m], text)
}

// Its number and its side, as in a case text.
fn spell_end(out: &mut [u8], n: SectionNo, s: Side) -> usize
    ensures { Appended out.old 0 (end_line n s) out.new result }
{
    let behind = append::number(out, 0, n.0 as u32 + 1, side_byte(s));
    append::byte(out, behind, LINE_END)
}

fn side_byte(s: Side) -> u8
    ensures { result ≡ side_byte s }
{
    match s {
        Side::Up => b'u',
        Side::Down => b'd',
    }
}
