// Reader, solver, emitter and checker for programs in other languages: a case text, and tables, buffers and numbers that are lent. The static
// library of crate solver_api_c exports these calls. Each answers the number of the refusal, or 0; the call for
// a plan's lines has two answers more. A call that refuses leaves all that it is lent as it was.
#![tactic(auto)]

ghost use Rattle.std.specs.Prelude.{◌≡◌};
ghost use Rattle.solver_api.specs.Exported.{SolvedRailway, SolvedText};
ghost use Rattle.solver_api.specs.Plans.{place_at, place_number, writing, WrittenRailway, WrittenText};
ghost use Rattle.solver_api.specs.Plans.{state_of, state_numbers, lent, BegunRailway, BegunText, TakenRailway, TakenText, TestedRailway, TestedText};

use plan::{CheckerState, Emission, PlanPlace};
use plan_checker::Checker;
use railway::Railway;

// What the call for the plan's lines answers where no line is left, and where there is no plan. No refusal has such a number.
pub const END: u8 = 255;

pub const NO_PLAN: u8 = 254;

// A checker's state as three numbers.
pub type Numbers = [u32; 3];

// Fills both tables and answers 0, also where the start has no figure; or answers the refusal's number and leaves them as they were.
pub fn solve_case(text: &[u8], figures: &mut [u32], settings: &mut [u32]) -> u8
    ensures { SolvedText text.now figures.old settings.old result figures.new settings.new }
{
    match case_reader::read_case(text) {
        Err(f) => f.number(),
        Ok(r) => solve_railway(r, figures, settings),
    }
}

fn solve_railway(r: Railway, figures: &mut [u32], settings: &mut [u32]) -> u8
    ensures { SolvedRailway r figures.old settings.old result figures.new settings.new }
{
    match solver::solve(r, figures, settings) {
        Err(f) => f.number(),
        Ok(_) => 0,
    }
}

// THE PLAN'S LINES from a place on (0: the plan's first line), as many as have room in `out`. Answers 0 where lines were written, with the next place in
// `place` and their bytes in `bytes`. Every other answer leaves all that is lent as it was.
pub fn write_plan_lines(
    text: &[u8],
    figures: &[u32],
    settings: &[u32],
    place: &mut u64,
    out: &mut [u8],
    bytes: &mut usize,
) -> u8
    ensures { WrittenText text.now figures.now settings.now
        (writing place.old out.old bytes.old) result
        (writing place.new out.new bytes.new) }
{
    match case_reader::read_case(text) {
        Err(f) => f.number(),
        Ok(r) => { write_railway(r, figures, settings, place, out, bytes) }
    }
}

fn write_railway(
    r: Railway,
    figures: &[u32],
    settings: &[u32],
    place: &mut u64,
    out: &mut [u8],
    bytes: &mut usize,
) -> u8
    ensures { WrittenRailway r figures.now settings.now
        (writing place.old out.old bytes.old) result
        (writing place.new out.new bytes.new) }
{
    let from = place_at(*place);
    match plan_emitter::emit_lines(r, figures, settings, from, out) {
        Ok(Emission::Line(n, next)) => {
            *place = place_number(next);
            *bytes = n;
            0
        }
        Ok(Emission::End) => END,
        Ok(Emission::NoPlan) => NO_PLAN,
        Err(f) => f.number(),
    }
}

// The place that a number stands for.
fn place_at(n: u64) -> PlanPlace
    ensures { result ≡ place_at n }
{
    if n == 0 {
        return PlanPlace::Top;
    }
    if 4294967295 < n {
        return PlanPlace::From(4294967295);
    }
    PlanPlace::From((n - 1) as u32)
}

fn place_number(place: PlanPlace) -> u64
    ensures { result ≡ place_number place }
{
    match place {
        PlanPlace::Top => 0,
        PlanPlace::From(c) => c as u64 + 1,
    }
}

// A CHECK BEGINS: both tables are made fresh, and the state is that of a checker that has taken no line.
pub fn begin_check(
    text: &[u8],
    state: &mut Numbers,
    figures: &mut [u32],
    settings: &mut [u32],
) -> u8
    ensures { BegunText text.now (lent state.old figures.old settings.old) result
        (lent state.new figures.new settings.new) }
{
    match case_reader::read_case(text) {
        Err(f) => f.number(),
        Ok(r) => begin_railway(r, state, figures, settings),
    }
}

fn begin_railway(r: Railway, state: &mut Numbers, figures: &mut [u32], settings: &mut [u32]) -> u8
    ensures { BegunRailway r (lent state.old figures.old settings.old) result (lent state.new figures.new settings.new) }
{
    let (checker, begun) = Checker::fresh(r, figures, settings);
    match begun {
        Err(f) => f.number(),
        Ok(()) => {
            *state = state_numbers(checker);
            0
        }
    }
}

// THE LINES IN FRONT of a plan's text, up to the first that is refused: they are entered, and how many bytes they have stands in `bytes`. A case or tables
// are refused, a line is not.
pub fn take_plan_lines(
    text: &[u8],
    state: &mut Numbers,
    plan: &[u8],
    figures: &mut [u32],
    settings: &mut [u32],
    bytes: &mut usize,
) -> u8
    ensures { TakenText text.now (lent state.old figures.old settings.old)
        plan.now bytes.old result
        (lent state.new figures.new settings.new) bytes.new }
{
    match case_reader::read_case(text) {
        Err(f) => f.number(),
        Ok(r) => { take_railway(r, state, plan, figures, settings, bytes) }
    }
}

fn take_railway(
    r: Railway,
    state: &mut Numbers,
    plan: &[u8],
    figures: &mut [u32],
    settings: &mut [u32],
    bytes: &mut usize,
) -> u8
    ensures { TakenRailway r (lent state.old figures.old settings.old)
        plan.now bytes.old result
        (lent state.new figures.new settings.new) bytes.new }
{
    let mut checker = checker_of(*state);
    match checker.take_front(r, plan, figures, settings) {
        Err(refused) => refused.number(),
        Ok(n) => {
            *state = state_numbers(checker);
            *bytes = n;
            0
        }
    }
}

// THE TEST of the lines taken: 0 where the plan passes.
pub fn test_plan(text: &[u8], state: &Numbers, figures: &[u32], settings: &[u32]) -> u8
    ensures { TestedText text.now (lent state.now figures.now settings.now) result }
{
    match case_reader::read_case(text) {
        Err(f) => f.number(),
        Ok(r) => test_railway(r, state, figures, settings),
    }
}

fn test_railway(r: Railway, state: &Numbers, figures: &[u32], settings: &[u32]) -> u8
    ensures { TestedRailway r (lent state.now figures.now settings.now) result }
{
    let checker = checker_of(*state);
    match checker.test(r, figures, settings) {
        Err(failed) => failed.number(),
        Ok(()) => 0,
    }
}

// The checker that three numbers stand for.
fn checker_of(numbers: Numbers) -> Checker
    ensures { result.state ≡ state_of numbers }
{
    if numbers[0] == 0 {
        return Checker {
            state: CheckerState::Fresh,
        };
    }
    Checker {
        state: CheckerState::Begun(numbers[1], numbers[2]),
    }
}

fn state_numbers(checker: Checker) -> Numbers
    ensures { result ≡ state_numbers checker.state }
{
    let state = checker.state;
    match state {
        CheckerState::Fresh => [0, 0, 0],
        CheckerState::Begun(m, from) => [1, m, from],
    }
}
