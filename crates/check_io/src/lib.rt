// What program plancheck does, for it and for the program that runs it on another input: the case of file case.txt in the working folder and a plan on standard
// input; `pass` on standard output, or `refused`, a tab and the number.
#![tactic(auto)]

ghost use Rattle.std.specs.Prelude.{◌≡◌, suc, ◌≤◌, length};
ghost use Rattle.std.proofs.Math.Option.{get_or};
ghost use Rattle.case_file.specs.Rows.{most_bytes};
ghost use Rattle.case_file.specs.Writing.{written_count};
ghost use Rattle.answer_lines.specs.Lines.{most_answer_bytes};
ghost use Rattle.check_text.specs.Claims.{read_bytes};
ghost use Rattle.check_io.specs.Answered.{Answered};

use railway::Refusal;

// One byte more than a case text may have: so many bytes decide what is answered (`CutDecides` in case_file/specs/Claims).
const CASE: usize = case_file::MOST_BYTES + 1;

// One byte more than a plan can have, a first line and one for each entry: so many bytes decide what any text is answered
// (`CutDecides` in check_text/specs/Claims).
const PLAN: usize = (check_text::ENTRIES + 1) * plan_lines::MOST_LINE_BYTES + 1;

// The answer is how many bytes there are to be written.
pub fn write_verdict(rt: &HostRuntime) -> usize
    ensures { Answered result }
{
    let mut case = [0u8; CASE];
    let mut plan = [0u8; PLAN];
    let mut line = [0u8; answer_lines::LINE];
    check_input(rt, &mut case, &mut plan, &mut line)
}

// Reads into buffers of these lengths and writes what stands in the third. A file that is not there cannot be read, and is an empty text.
fn check_input(rt: &HostRuntime, case: &mut [u8], plan: &mut [u8], line: &mut [u8]) -> usize
    requires { (length case.old ≡ suc most_bytes) × (length plan.old ≡ read_bytes) × (most_answer_bytes ≤ length line.old) }
    ensures { Answered result }
{
    let mut file = file_input::open(rt, "case.txt");
    let mut input = rt.stdin();
    let heard = check_files::check_files(&mut file, &mut input, case, plan, line);
    answer_output::front(line, heard.line);
    bytes_put(heard.line)
}

// How many bytes were put; none where they found no room.
fn bytes_put(put: Result<usize, Refusal>) -> usize
    ensures { result ≡ get_or (written_count put) 0 }
{
    put.unwrap_or(0)
}
