// A text put into a lent buffer, and the lines that stand for an answer: a refusal, no plan, the answer to the test of a plan. Each is put whole at the
// front of the buffer, and the answer says how many bytes it has; or it finds no room, is refused for that, and the buffer is as it was.
#![tactic(auto)]

ghost use Rattle.text.specs.Appending.{Appended};
ghost use Rattle.answer_lines.specs.Lines.{refusal_line, none_line, test_line, PutPost};

use railway::Refusal;
use text::{LINE_END, append};

// Room enough for every line here.
pub const LINE: usize = 16;

// A refusal, by its number in the table.
pub fn refusal_line(f: Refusal, out: &mut [u8]) -> Result<usize, Refusal>
    ensures { PutPost (refusal_line f) out.old result out.new }
{
    let mut line = [0u8; LINE];
    let n = spell_refusal(&mut line, f);
    put(&line[..n], out)
}

// There is no plan.
pub fn none_line(out: &mut [u8]) -> Result<usize, Refusal>
    ensures { PutPost none_line out.old result out.new }
{
    put(b"none\n", out)
}

// The answer to the call for the test.
pub fn test_line(a: Result<(), Refusal>, out: &mut [u8]) -> Result<usize, Refusal>
    ensures { PutPost (test_line a) out.old result out.new }
{
    match a {
        Ok(()) => put(b"pass\n", out),
        Err(f) => refusal_line(f, out),
    }
}

// Any text.
pub fn put(text: &[u8], out: &mut [u8]) -> Result<usize, Refusal>
    ensures { PutPost text.now out.old result out.new }
{
    if out.len() < text.len() {
        return Err(Refusal::Space);
    }
    append::bytes(out, 0, text);
    Ok(text.len())
}

// A refusal in a buffer with room for it: its length is known when it has been written.
fn spell_refusal(out: &mut [u8], f: Refusal) -> usize
    ensures { Appended out.old 0 (refusal_line f) out.new result }
{
    let behind = append::bytes(out, 0, b"refused\t");
    append::number(out, behind, f.number() as u32, LINE_END)
}
