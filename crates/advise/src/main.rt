// A case text on standard input; on standard output a line: that no signal is needed, the first section end at which
// a signal would help, that there is no such end, or `refused`, a tab and the number.
#![tactic(auto)]

ghost use Rattle.advice_text.specs.Lines.{Advised};

// The descriptor of standard input.
const STDIN_FILENO: i32 = 0;

// One byte more than a case text may have: so many bytes decide what is written (`CutWrites` in advice_text/specs/Lines).
const CASE: usize = case_file::MOST_BYTES + 1;

fn main() {
    advise_input();
}

// Reads, calls and writes, with a buffer for all bytes that decide and one for every line. The answer is how many bytes there are to be written.
fn advise_input() -> usize
    ensures { Advised result }
{
    let mut case = [0u8; CASE];
    let mut text = [0u8; advice_text::LINE];
    let came = io::read_full(STDIN_FILENO, &mut case);
    let put = advice_text::case_advice(&case[..came], &mut text);
    answer_output::front_bytes(&text, put)
}
