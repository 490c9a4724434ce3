// What program thinplan does: the case of file case.txt in the working folder and a plan on standard input; the text of the lean plan on standard output, or `refused`, a tab and the number.
#![tactic(auto)]

ghost use Rattle.std.specs.Prelude.{◌≡◌, suc, length};
ghost use Rattle.case_file.specs.Rows.{most_bytes};
ghost use Rattle.plan_text.specs.Written.{text_bytes};
ghost use Rattle.check_text.specs.Claims.{read_bytes};
ghost use Rattle.answer_lines.specs.Lines.{FrontIs};
ghost use Rattle.thin_text.specs.Lean.{LeanOutput};
ghost use Rattle.thin_io.specs.Thinned.{ThinnedBytes};

// The descriptor of standard input.
const STDIN_FILENO: i32 = 0;

// The descriptor of standard output.
const STDOUT_FILENO: i32 = 1;

// One byte more than a case text may have: so many bytes decide what is written (`CutThins` in thin_text/specs/Claims).
const CASE: usize = case_file::MOST_BYTES + 1;

// One byte more than a plan can have, a first line and one for each entry: a longer text has a line among these bytes that is refused. So many bytes decide, too.
const PLAN: usize = plan_text::TEXT + 1;

// The answer is how many bytes there are to be written.
pub fn write_lean(rt: &HostRuntime) -> usize
    ensures { ThinnedBytes result }
{
    let mut case = [0u8; CASE];
    let mut plan = [0u8; PLAN];
    let mut text = [0u8; plan_text::TEXT];
    lean_input(rt, &mut case, &mut plan, &mut text)
}

// Reads into buffers of these lengths, and writes what stands in the third. A file that is not there cannot be read, and is an empty text.
fn lean_input(rt: &HostRuntime, case: &mut [u8], plan: &mut [u8], text: &mut [u8]) -> usize
    requires { (length case.old ≡ suc most_bytes) × (length plan.old ≡ read_bytes) × (length text.old ≡ text_bytes) }
    ensures { ThinnedBytes result }
{
    let n = file_input::read_file(rt, "case.txt", case);
    let m = io::read_full(STDIN_FILENO, plan);
    let bytes = whole_text(&case[..n], &plan[..m], text);
    io::write_all(STDOUT_FILENO, &text[..bytes]);
    bytes
}

// The whole text, and how many bytes it has: with room for every text none is refused.
fn whole_text(case: &[u8], plan: &[u8], text: &mut [u8]) -> usize
    requires { length text.old ≡ text_bytes }
    ensures { FrontIs (LeanOutput case.now plan.now) result text.new }
{
    match thin_text::lean_text(case, plan, text) {
        Ok(n) => n,
        Err(_) => 0,
    }
}
