// Writing into a lent buffer, at a cursor: a byte, a number and a byte behind it, a text. Each function answers the cursor behind what it
// has written. All are total: a byte that finds no room is lost, and the cursor stays.
ghost use Rattle.std.specs.Prelude.{[], ◌∷◌, ◌++◌};
ghost use Rattle.text.specs.Text.{digits, decimal};
ghost use Rattle.text.specs.Appending.{Appended};

// One byte.
pub fn byte(out: &mut [u8], at: usize, b: u8) -> usize
    ensures { Appended out.old at (b ∷ []) out.new result }
{
    if at < out.len() {
        out[at] = b;
        return at + 1;
    }
    at
}

// Two bytes.
pub fn two(out: &mut [u8], at: usize, a: u8, b: u8) -> usize
    ensures { Appended out.old at (a ∷ b ∷ []) out.new result }
{
    let next = byte(out, at, a);
    byte(out, next, b)
}

// A number in decimal, and a byte behind it. Most numbers have one digit or two.
pub fn number(out: &mut [u8], at: usize, n: u32, after: u8) -> usize
    ensures { Appended out.old at (decimal n ++ (after ∷ [])) out.new result }
{
    if n < 10 {
        return two(out, at, b'0' + n as u8, after);
    }
    if n < 100 {
        let behind = two(out, at, b'0' + (n / 10) as u8, b'0' + (n % 10) as u8);
        return byte(out, behind, after);
    }
    let next = digits(out, at, 10, n);
    byte(out, next, after)
}

// A number in decimal, of so many digits at most: those in front first.
fn digits(out: &mut [u8], at: usize, left: u8, n: u32) -> usize
    ensures { Appended out.old at (digits left n) out.new result }
{
    if left == 0 {
        return at;
    }
    if n < 10 {
        return byte(out, at, b'0' + n as u8);
    }
    let next = digits(out, at, left - 1, n / 10);
    byte(out, next, b'0' + (n % 10) as u8)
}

// A whole text.
pub fn bytes(out: &mut [u8], at: usize, text: &[u8]) -> usize
    ensures { Appended out.old at text.now out.new result }
{
    let mut next = at;
    for b in text {
        next = byte(out, next, *b);
    }
    next
}
