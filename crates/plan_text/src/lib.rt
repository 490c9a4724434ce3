// All that program signalplan writes for a case text, put into a lent buffer: the plan's lines, or `none`, or the line of a refusal. It stands whole at the
// front of the buffer, or finds no room and is refused for that, and the buffer is as it was.
#![tactic(auto)]

ghost use Rattle.std.specs.Prelude.{◌≤◌, length, take};
ghost use Rattle.text.specs.Appending.{Appended};
ghost use Rattle.plan.specs.Text.{plan_text};
ghost use Rattle.answer_lines.specs.Lines.{PutPost, Puts};
ghost use Rattle.plan_text.specs.Written.{RailwayOutput, CaseOutput, text_bytes};
ghost use Rattle.plan_text.specs.Listable.{Listable};

use game_tables::ENTRIES;
use plan::{Emission, PlanPlace};
use plan_lines::MOST_LINE_BYTES;
use railway::{Railway, Refusal};

// Room for every text: a first line, and one for each entry of a table.
pub const TEXT: usize = (ENTRIES + 1) * MOST_LINE_BYTES;

// A case text: refused by the reader, or read and then solved.
pub fn case_text(case: &[u8], text: &mut [u8]) -> Result<usize, Refusal>
    ensures { Puts (CaseOutput case.now) text_bytes text.old result text.new }
{
    match case_reader::read_case(case) {
        Err(refused) => answer_lines::refusal_line(refused, text),
        Ok(r) => railway_text(r, text),
    }
}

// A railway: the text for what the solver answers that is lent tables of the call's own.
fn railway_text(r: Railway, text: &mut [u8]) -> Result<usize, Refusal>
    ensures { Puts (RailwayOutput r) text_bytes text.old result text.new }
{
    let mut figures = [0u32; ENTRIES];
    let mut settings = [0u32; ENTRIES];
    match solver::solve(r, &mut figures, &mut settings) {
        Err(f) => answer_lines::refusal_line(f, text),
        Ok(None) => answer_lines::none_line(text),
        Ok(Some(_)) => plan_text(r, &figures, &settings, text),
    }
}

// The text of two tables that a plan can be written of, whoever filled them: written where it is to stand, if there is room for every text. Of other tables nothing is promised.
pub fn plan_text(
    r: Railway,
    figures: &[u32],
    settings: &[u32],
    text: &mut [u8],
) -> Result<usize, Refusal>
    ensures { Listable r figures.now settings.now
        → PutPost (plan_text r figures.now settings.now) text.old result text.new }
{
    if text.len() < TEXT {
        return own_text(r, figures, settings, text);
    }
    let n = plan_lines(r, figures, settings, text);
    Ok(n)
}

// The text, made in a buffer of the call's own and put from there.
fn own_text(
    r: Railway,
    figures: &[u32],
    settings: &[u32],
    text: &mut [u8],
) -> Result<usize, Refusal>
    ensures { Listable r figures.now settings.now
        → PutPost (plan_text r figures.now settings.now) text.old result text.new }
{
    let mut own = [0u8; TEXT];
    let n = plan_lines(r, figures, settings, &mut own);
    put_first(&own, n, text)
}

// The first n bytes of a buffer that has so many.
fn put_first(own: &[u8], n: usize, text: &mut [u8]) -> Result<usize, Refusal>
    ensures { n ≤ length own.now → PutPost (take n own.now) text.old result text.new }
{
    if own.len() < n {
        return Err(Refusal::Space);
    }
    answer_lines::put(&own[..n], text)
}

// All lines at once, in a buffer with room for as many as there can be.
fn plan_lines(r: Railway, figures: &[u32], settings: &[u32], out: &mut [u8]) -> usize
    ensures { Listable r figures.now settings.now → text_bytes ≤ length out.old
        → Appended out.old 0 (plan_text r figures.now settings.now) out.new result }
{
    match plan_emitter::emit_lines(r, figures, settings, PlanPlace::Top, out) {
        Ok(Emission::Line(n, _)) => n,
        Ok(Emission::End) => 0,
        Ok(Emission::NoPlan) => 0,
        Err(_) => 0,
    }
}
