// All that program thinplan writes for a case text and a plan's, put into a lent buffer: the text of the lean plan, or the line of a refusal. It stands whole at the front of the buffer, or
// finds no room and is refused for that, and the buffer is as it was.
#![tactic(auto)]

ghost use Rattle.std.specs.Prelude.{◌≡◌, length};
ghost use Rattle.game_tables.specs.Lengths.{entries};
ghost use Rattle.plan_checker.specs.Answers.{checking};
ghost use Rattle.answer_lines.specs.Lines.{Puts};
ghost use Rattle.plan_text.specs.Written.{text_bytes};
ghost use Rattle.thin_text.specs.Lean.{EndOutput, PlanOutput, LeanOutput};

use game_tables::ENTRIES;
use plan_checker::Checker;
use railway::{Railway, Refusal};

// A case text and a plan's: refused by the reader, or the plan is entered.
pub fn lean_text(case: &[u8], plan: &[u8], text: &mut [u8]) -> Result<usize, Refusal>
    ensures { Puts (LeanOutput case.now plan.now) text_bytes text.old result text.new }
{
    match case_reader::read_case(case) {
        Err(f) => answer_lines::refusal_line(f, text),
        Ok(r) => railway_text(r, plan, text),
    }
}

// A railway and a plan's text, which is entered into tables of the call's own.
fn railway_text(r: Railway, plan: &[u8], text: &mut [u8]) -> Result<usize, Refusal>
    ensures { Puts (PlanOutput r plan.now) text_bytes text.old result text.new }
{
    let mut figures = [0u32; ENTRIES];
    let mut settings = [0u32; ENTRIES];
    let (checker, _) = Checker::fresh(r, &mut figures, &mut settings);
    let gone = check_text::go_on(checker, r, plan, &mut figures, &mut settings);
    end_text(
        gone.checker,
        r,
        &plan[gone.bytes..],
        &figures,
        &mut settings,
        text,
    )
}

// The end, with these bytes left of the plan's text, which were not taken.
fn end_text(
    checker: Checker,
    r: Railway,
    rest: &[u8],
    figures: &[u32],
    settings: &mut [u32],
    text: &mut [u8],
) -> Result<usize, Refusal>
    requires { length figures.now ≡ entries }
    ensures { Puts (EndOutput r (checking checker figures.now settings.old) rest.now) text_bytes text.old result text.new }
{
    if 0 < rest.len() {
        let answer = check_text::finish(checker, r, rest, figures, settings);
        return answer_lines::test_line(answer, text);
    }
    match thin_call::thin(&checker, r, figures, settings) {
        Err(f) => answer_lines::refusal_line(f, text),
        Ok(()) => plan_text::plan_text(r, figures, settings, text),
    }
}
