// The exported calls of crate solver_api, for programs in other languages: a case text, and tables, buffers and numbers that are lent. A static library and nothing
// else: each call is that of the library crate, with its contract.
#![tactic(auto)]

ghost use Rattle.solver_api.specs.Exported.{SolvedText};
ghost use Rattle.solver_api.specs.Plans.{writing, WrittenText, lent, BegunText, TakenText, TestedText};

use solver_api::Numbers;

// Fills both tables and answers 0, also where the start has no figure; or answers the refusal's number and leaves them as they were.
#[unsafe(no_mangle)]
pub extern "C" fn solve_case(text: &[u8], figures: &mut [u32], settings: &mut [u32]) -> u8
    ensures { SolvedText text.now figures.old settings.old result figures.new settings.new }
{
    solver_api::solve_case(text, figures, settings)
}

// THE PLAN'S LINES from a place on (0: the plan's first line), as many as have room in `out`. Answers 0 where lines were written, with the next place in
// `place` and their bytes in `bytes`. Every other answer leaves all that is lent as it was.
#[unsafe(no_mangle)]
pub extern "C" fn write_plan_lines(
    text: &[u8],
    figures: &[u32],
    settings: &[u32],
    place: &mut u64,
    out: &mut [u8],
    bytes: &mut usize,
) -> u8
    ensures { WrittenText text.now figures.now settings.now
        (writing place.old out.old bytes.old) result
        (writing place.new out.new bytes.new) }
{
    solver_api::write_plan_lines(text, figures, settings, place, out, bytes)
}

// A CHECK BEGINS: both tables are made fresh, and the state is that of a checker that has taken no line.
#[unsafe(no_mangle)]
pub extern "C" fn begin_check(
    text: &[u8],
    state: &mut Numbers,
    figures: &mut [u32],
    settings: &mut [u32],
) -> u8
    ensures { BegunText text.now (lent state.old figures.old settings.old) result
        (lent state.new figures.new settings.new) }
{
    solver_api::begin_check(text, state, figures, settings)
}

// THE LINES IN FRONT of a plan's text, up to the first that is refused: they are entered, and how many bytes they have stands in `bytes`. A case or tables
// are refused, a line is not.
#[unsafe(no_mangle)]
pub extern "C" fn take_plan_lines(
    text: &[u8],
    state: &mut Numbers,
    plan: &[u8],
    figures: &mut [u32],
    settings: &mut [u32],
    bytes: &mut usize,
) -> u8
    ensures { TakenText text.now (lent state.old figures.old settings.old)
        plan.now bytes.old result
        (lent state.new figures.new settings.new) bytes.new }
{
    solver_api::take_plan_lines(text, state, plan, figures, settings, bytes)
}

// THE TEST of the lines taken: 0 where the plan passes.
#[unsafe(no_mangle)]
pub extern "C" fn test_plan(text: &[u8], state: &Numbers, figures: &[u32], settings: &[u32]) -> u8
    ensures { TestedText text.now (lent state.now figures.now settings.now) result }
{
    solver_api::test_plan(text, state, figures, settings)
}
