// What program signalplan does, for it and for the program that runs it on another input: a case text on standard input; its plan on standard output, or
// `none`, or `refused`, a tab and the number.
#![tactic(auto)]

ghost use Rattle.plan_io.specs.Planned.{Planned};

// The descriptor of standard input.
const STDIN_FILENO: i32 = 0;

// One byte more than a case text may have: so many bytes decide what is written (`CutWrites` in plan_text/specs/Written).
const CASE: usize = case_file::MOST_BYTES + 1;

// Reads, calls and writes, with a buffer for all bytes that decide and one for every text. The answer is how many bytes there are to be written.
pub fn write_plan() -> usize
    ensures { Planned result }
{
    let mut case = [0u8; CASE];
    let mut text = [0u8; plan_text::TEXT];
    let came = io::read_full(STDIN_FILENO, &mut case);
    let put = plan_text::case_text(&case[..came], &mut text);
    answer_output::front_bytes(&text, put)
}
