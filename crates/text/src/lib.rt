// Bytes and number fields at a cursor, for the case file and the plan alike. A cursor goes in by value, and the next one comes back with what
// was read. Past the end of a text stands byte 0, which begins no field, so any cursor may come in. Writing is in `append`. specs/ has the
// definitions, proofs/ the laws.
#![tactic(auto)]

ghost use Rattle.std.specs.Prelude.{◌≡◌, ◌-◌, ◌^◌, ◌≤◌, ◌<◌, length, get_or};
ghost use Rattle.text.specs.Reading.{is_digit, digits_at, number_at};
ghost use Rattle.text.specs.Answers.{more_digits, number_got, byte_got, byte_inside};

pub mod append; // append.rt: bytes and numbers put into a lent buffer, one behind the other

// What parts the fields of a line, and what ends it.
pub const TAB: u8 = b'\t';

pub const LINE_END: u8 = b'\n';

#[derive(Clone, Copy)]
pub struct Cursor {
    pub at: usize,
}

// How long a number may be: three digits in a case file, ten in a plan.
#[derive(Clone, Copy)]
pub enum Width {
    Three,
    Ten,
}

// The byte at the cursor.
pub fn peek(text: &[u8], c: Cursor) -> u8
    ensures { result ≡ get_or text.now c.at 0 }
{
    let at = c.at;
    if at < text.len() { text[at] } else { 0 }
}

// The cursor behind the byte b, where it stands at this one.
pub fn byte_at(text: &[u8], c: Cursor, b: u8) -> Option<Cursor>
    ensures { byte_got b result ≡ byte_inside text.now b c.at }
{
    let at = c.at;
    if at < text.len() && text[at] == b {
        Some(Cursor { at: at + 1 })
    } else {
        None
    }
}

fn is_digit(b: u8) -> bool
    ensures { result ≡ is_digit b }
{
    b.is_ascii_digit()
}

fn more_digits(w: Width) -> u8
    ensures { result ≡ more_digits w }
{
    match w {
        Width::Three => 2,
        Width::Ten => 9,
    }
}

// The number at the cursor, and the cursor behind it: as many digits as there are and the width allows, and a zero by itself.
pub fn number_at(text: &[u8], c: Cursor, w: Width) -> Option<(u64, Cursor)>
    ensures { number_got result ≡ number_at text.now (more_digits w) c.at }
{
    let first = peek(text, c);
    if !is_digit(first) {
        return None;
    }
    let next = Cursor { at: c.at + 1 };
    if first == b'0' {
        Some((0, next))
    } else {
        Some(digits_at(text, next, (first - b'0') as u64, more_digits(w)))
    }
}

// At most so many more digits, behind those of the number so far.
fn digits_at(text: &[u8], from: Cursor, value: u64, most: u8) -> (u64, Cursor)
    requires { (value < 10 ^ (10 - most)) × (most ≤ 9) × (from.at ≤ length text.now) }
    ensures { number_got (Some result) ≡ digits_at text.now most value from.at }
{
    let mut at = from.at;
    let mut n = value;
    for _i in 0..most {
        let b = peek(text, Cursor { at: at });
        if !is_digit(b) {
            break;
        }
        n = n * 10 + (b - b'0') as u64;
        at += 1;
    }
    (n, Cursor { at: at })
}
