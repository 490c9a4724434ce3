// A plan's text checked, whole or piece by piece as it comes: its lines handed to the checker, as many as it takes, then the test; a line that is
// refused ends it.
#![tactic(auto)]

ghost use Rattle.std.specs.Prelude.{◌≡◌, drop};
ghost use Rattle.game_tables.specs.Tables.{case_refusal};
ghost use Rattle.answer_lines.specs.Lines.{most_answer_bytes, Puts};
ghost use Rattle.plan_checker.specs.Answers.{checking};
ghost use Rattle.check_text.specs.Verdict.{PlanPost, CasePlanPost, CheckOutput};
ghost use Rattle.check_text.specs.Pieces.{has_line_end, PiecePost, form_refused, EndPost};

use plan_checker::Checker;
use railway::{Railway, Refusal};

// As many entries has each of the two tables that a plan is entered into.
pub const ENTRIES: usize = game_tables::ENTRIES;

// What a call for the bytes that have come hands back: the checker, how many bytes were taken, and whether no line more can be taken. All three are there in
// every answer, since lines are taken before the one that stops it.
#[derive(Clone, Copy)]
pub struct Progress {
    pub checker: Checker,
    pub bytes: usize,
    pub stopped: bool,
}

// All that program plancheck writes for a case text and a plan's, put at the front of a lent buffer: how many bytes the line has.
pub fn check_line(case: &[u8], plan: &[u8], line: &mut [u8]) -> Result<usize, Refusal>
    ensures { Puts (CheckOutput case.now plan.now) most_answer_bytes line.old result line.new }
{
    let answer = check_case(case, plan);
    answer_lines::test_line(answer, line)
}

// A case text and a plan's: a refusal of the case, or what comes of the plan.
pub fn check_case(case: &[u8], plan: &[u8]) -> Result<(), Refusal>
    ensures { CasePlanPost case.now plan.now result }
{
    let r = case_reader::read_case(case)?;
    check_plan(r, plan)
}

// A railway and a plan's text, which comes in one piece. The tables are the call's own.
pub fn check_plan(r: Railway, plan: &[u8]) -> Result<(), Refusal>
    ensures { PlanPost r plan.now result }
{
    let mut figures = [0u32; ENTRIES];
    let mut settings = [0u32; ENTRIES];
    let (checker, _) = Checker::fresh(r, &mut figures, &mut settings);
    let gone = go_on(checker, r, plan, &mut figures, &mut settings);
    finish(gone.checker, r, &plan[gone.bytes..], &figures, &settings)
}

// THE BYTES THAT HAVE COME and were not taken yet: the lines in front of them, up to the first that is refused or has not come whole. It refuses nothing
// by itself: when it has stopped, the call at the end gives the refusal.
pub fn go_on(
    checker: Checker,
    r: Railway,
    rest: &[u8],
    figures: &mut [u32],
    settings: &mut [u32],
) -> Progress
    ensures { PiecePost r (checking checker figures.old settings.old) rest.now
        result.bytes result.stopped (checking result.checker figures.new settings.new) }
{
    let mut next = checker;
    match next.take_front(r, rest, figures, settings) {
        Ok(n) => Progress {
            checker: next,
            bytes: n,
            stopped: line_ends(rest, n),
        },
        Err(_) => Progress {
            checker: next,
            bytes: 0,
            stopped: true,
        },
    }
}

// THE END: of the text these bytes are left, which were not taken.
pub fn finish(
    checker: Checker,
    r: Railway,
    rest: &[u8],
    figures: &[u32],
    settings: &[u32],
) -> Result<(), Refusal>
    ensures { EndPost r (checking checker figures.now settings.now) rest.now result }
{
    if 0 < rest.len() {
        return not_taken(r, figures, settings);
    }
    checker.test(r, figures, settings)
}

// The rows of the case, and then the plan's form.
fn not_taken(r: Railway, figures: &[u32], settings: &[u32]) -> Result<(), Refusal>
    ensures { result ≡ form_refused (case_refusal r figures.now settings.now) }
{
    game_case::open_case(r, figures, settings)?;
    Err(Refusal::PlanForm)
}

// A line end stands in a text from a place on.
fn line_ends(text: &[u8], from: usize) -> bool
    ensures { result ≡ has_line_end (drop from text.now) }
{
    for at in from..text.len() {
        if text[at] == b'\n' {
            return true;
        }
    }
    false
}
