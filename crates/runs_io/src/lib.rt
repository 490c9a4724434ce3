// What program showruns does: a case text on standard input; on standard output the run of each train and their sum, or `refused`, a tab and the number.
#![tactic(auto)]

ghost use Rattle.runs_io.specs.Shown.{Shown};

// The descriptor of standard input.
const STDIN_FILENO: i32 = 0;

// One byte more than a case text may have: so many bytes decide what is written (`CutShows` in runs_text/specs/Written).
const CASE: usize = case_file::MOST_BYTES + 1;

// Reads, calls and writes, with a buffer for all bytes that decide and one for every text. The answer is how many bytes there are to be written.
pub fn write_runs() -> usize
    ensures { Shown result }
{
    let mut case = [0u8; CASE];
    let mut text = [0u8; runs_text::TEXT];
    let came = io::read_full(STDIN_FILENO, &mut case);
    let put = runs_text::case_runs(&case[..came], &mut text);
    answer_output::front_bytes(&text, put)
}
