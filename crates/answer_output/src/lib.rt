// The lines that programs write for an answer. Each is put at the front of a lent buffer, and what stands there is written on standard
// output: the promise is about the buffer, since no contract can speak of what leaves the program, nor of whether it left.
#![tactic(auto)]

ghost use Rattle.std.specs.Prelude.{◌≡◌, leb, length};
ghost use Rattle.answer_lines.specs.Lines.{refusal_line, test_line, put_into};
ghost use Rattle.answer_output.specs.Front.{has_front, front_bytes};

use railway::Refusal;

// The descriptor of standard output.
const STDOUT_FILENO: i32 = 1;

// Room enough for every line here.
pub const LINE: usize = answer_lines::LINE;

// A refusal, by its number in the table.
pub fn refusal(f: Refusal, out: &mut [u8])
    ensures { out.new ≡ put_into (refusal_line f) out.old }
{
    let put = answer_lines::refusal_line(f, out);
    front(out, put);
}

// The answer to the call for the test.
pub fn test_answer(a: Result<(), Refusal>, out: &mut [u8])
    ensures { out.new ≡ put_into (test_line a) out.old }
{
    let put = answer_lines::test_line(a, out);
    front(out, put);
}

// What was put at the front of a buffer, written on standard output; whether there is such a front: else nothing is written.
pub fn front(out: &[u8], put: Result<usize, Refusal>) -> bool
    ensures { result ≡ has_front put out.now }
{
    match put {
        Ok(n) => write_first(out, n),
        Err(_) => false,
    }
}

// The same, and how many bytes there are to be written: 0 where there is no such front.
pub fn front_bytes(out: &[u8], put: Result<usize, Refusal>) -> usize
    ensures { result ≡ front_bytes put out.now }
{
    match put {
        Ok(n) if write_first(out, n) => n,
        _ => 0,
    }
}

// The first n bytes of a buffer, if it has so many.
fn write_first(out: &[u8], n: usize) -> bool
    ensures { result ≡ leb n (length out.now) }
{
    if n <= out.len() {
        io::write_all(STDOUT_FILENO, &out[..n]);
        return true;
    }
    false
}
