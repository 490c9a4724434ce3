// A case text and a plan, each read from its source into a lent buffer, and the line that program plancheck writes for them. The plan is checked
// while it comes: at the first refused line no more is read.
#![tactic(auto)]

ghost use Rattle.std.specs.Prelude.{◌≡◌, not, ◌&&◌, ◌+◌, ◌≤◌, ltb, length, take};
ghost use Rattle.game_tables.specs.Lengths.{entries};
ghost use Rattle.plan_checker.specs.Answers.{checking};
ghost use Rattle.check_text.specs.Verdict.{PlanPost, CasePlanPost};
ghost use Rattle.check_files.specs.Hearing.{HeardPost, HeardPlan, MoreRead, Turned};

use check_text::ENTRIES;
use plan_checker::Checker;
use railway::{Railway, Refusal};
use std::io::Read;

// So many bytes of a plan are asked for at once at most. A longer one comes in several pieces though all of it is there, so that a run on a file goes
// through the loop more than once.
const PIECE: usize = 4096;

// How many bytes were read into either buffer, and what was put into the third.
#[derive(Clone, Copy)]
pub struct Heard {
    pub case: usize,
    pub plan: usize,
    pub line: Result<usize, Refusal>,
}

// What was answered, and how many bytes of the plan were read for it.
#[derive(Clone, Copy)]
struct Answered {
    answer: Result<(), Refusal>,
    bytes: usize,
}

// Where a check stands: so many bytes have come, and so many of them were taken; whether it goes on. Both numbers are read at the end too, so they stand
// beside the flag.
#[derive(Clone, Copy)]
struct Stand {
    at: usize,
    have: usize,
    going: bool,
}

// The case's file and the plan's, or what else reads. One that cannot be read is an empty text.
pub fn check_files<C: Read, P: Read>(
    case_file: &mut C,
    plan_file: &mut P,
    case: &mut [u8],
    plan: &mut [u8],
    line: &mut [u8],
) -> Heard
    ensures { HeardPost case.new plan.new line.old result.case result.plan result.line line.new }
{
    let n = file_input::read_full(case_file, case);
    let read = answer_to(&case[..n], plan_file, plan);
    let answer = read.answer;
    let m = read.bytes;
    let put = answer_lines::test_line(answer, line);
    Heard {
        case: n,
        plan: m,
        line: put,
    }
}

// A case text, and the plan that is read for it. Where the case is refused nothing is read.
fn answer_to<P: Read>(case: &[u8], file: &mut P, plan: &mut [u8]) -> Answered
    ensures { (result.bytes ≤ length plan.new) × CasePlanPost case.now (take result.bytes plan.new) result.answer }
{
    match case_reader::read_case(case) {
        Err(f) => Answered {
            answer: Err(f),
            bytes: 0,
        },
        Ok(r) => check_plan(r, file, plan),
    }
}

// The tables are the call's own.
fn check_plan<P: Read>(r: Railway, file: &mut P, plan: &mut [u8]) -> Answered
    ensures { (result.bytes ≤ length plan.new) × PlanPost r (take result.bytes plan.new) result.answer }
{
    let mut figures = [0u32; ENTRIES];
    let mut settings = [0u32; ENTRIES];
    listen(r, file, plan, &mut figures, &mut settings)
}

// Piece after piece, until the text ends, the buffer is full or a line is refused.
fn listen<P: Read>(
    r: Railway,
    file: &mut P,
    plan: &mut [u8],
    figures: &mut [u32],
    settings: &mut [u32],
) -> Answered
    requires { (length figures.old ≡ entries) × (length settings.old ≡ entries) }
    ensures { (result.bytes ≤ length plan.new) × PlanPost r (take result.bytes plan.new) result.answer }
{
    let (checker, made) = Checker::fresh(r, figures, settings);
    hear(checker, made.is_ok(), r, file, plan, figures, settings)
}

// They, by a checker that no line has come to yet.
fn hear<P: Read>(
    mut checker: Checker,
    mut going: bool,
    r: Railway,
    file: &mut P,
    plan: &mut [u8],
    figures: &mut [u32],
    settings: &mut [u32],
) -> Answered
    ensures { HeardPlan r (checking checker figures.old settings.old) plan.new result.bytes result.answer }
{
    let mut at: usize = 0;
    let mut have: usize = 0;
    while going {
        let stand = turn(&mut checker, r, file, plan, at, have, figures, settings);
        at = stand.at;
        have = stand.have;
        going = stand.going;
    }
    let answer = check_text::finish(checker, r, &plan[at..have], figures, settings);
    Answered {
        answer: answer,
        bytes: have,
    }
}

// One piece, and the lines that have come with it. Where nothing comes the text is at its end, or the buffer is full.
fn turn<P: Read>(
    checker: &mut Checker,
    r: Railway,
    file: &mut P,
    plan: &mut [u8],
    at: usize,
    have: usize,
    figures: &mut [u32],
    settings: &mut [u32],
) -> Stand
    requires { (at ≤ have) × (have ≤ length plan.old) }
    ensures { Turned r plan.old at have
        (checking checker.old figures.old settings.old) plan.new result.at result.have
        result.going (checking checker.new figures.new settings.new) }
{
    let n = read_more(file, plan, have);
    let end = have + n;
    let gone = check_text::go_on(*checker, r, &plan[at..end], figures, settings);
    *checker = gone.checker;
    Stand {
        at: at + gone.bytes,
        have: end,
        going: goes_on(n, gone.stopped),
    }
}

// More has come, and it decides nothing yet.
fn goes_on(n: usize, stopped: bool) -> bool
    ensures { result ≡ (not stopped && ltb 0 n) }
{
    if stopped {
        return false;
    }
    0 < n
}

// One read behind the bytes that are there, a piece at most: how many came.
fn read_more<P: Read>(file: &mut P, plan: &mut [u8], have: usize) -> usize
    requires { have ≤ length plan.old }
    ensures { MoreRead plan.old have result plan.new }
{
    let end = piece_end(have, plan.len());
    file_input::read_some(file, &mut plan[have..end])
}

// Where a piece ends that begins here, in a buffer of so many bytes.
fn piece_end(have: usize, bytes: usize) -> usize
    requires { have ≤ bytes }
    ensures { (have ≤ result) × (result ≤ bytes) }
{
    if bytes - have < PIECE {
        return bytes;
    }
    have + PIECE
}
