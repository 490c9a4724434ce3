// The writer of a case file: a record is tested, its text is made in a buffer of its own and copied into the lent one if it fits there.
// A refused record or a short buffer leaves every byte of the lent one as it was.
#![tactic(auto)]

ghost use Rattle.std.specs.Prelude.{◌≡◌, [], ◌∷◌, ◌++◌, suc};
ghost use Rattle.text.specs.Text.{decimal, line};
ghost use Rattle.text.specs.Appending.{Appended};
ghost use Rattle.case_file.specs.Form.{side_byte, leg_byte, end_field, weight_field, point_line, train_line};
ghost use Rattle.case_file.specs.Recording.{field_of};
ghost use Rattle.case_file.specs.Writing.{written_weight, line_of_train, written_text, WriterPost};
ghost use Rattle.case_writer.specs.Pieces.{header_text, join_piece, signal_piece, closed_piece};

use railway::{End, Leg, PointNo, Railway, Refusal, Side, Train};
use text::{LINE_END, TAB, append};

// Any record, any buffer: the text's length, with the text in front of the buffer; or the first of the record's rows and row 9 that applies.
pub fn write_case(r: Railway, buffer: &mut [u8]) -> Result<usize, Refusal>
    ensures { WriterPost r buffer.old result buffer.new }
{
    railway_acceptance::test_record(r)?;
    let mut text: [u8; case_file::MOST_BYTES] = [0; case_file::MOST_BYTES];
    let n = put_text(&mut text, r);
    if buffer.len() < n {
        return Err(Refusal::Space);
    }
    append::bytes(buffer, 0, &text[..n]);
    Ok(n)
}

// The whole text: its first line, and then part by part what stands for each point, end, section end, section and train.
fn put_text(out: &mut [u8], r: Railway) -> usize
    ensures { Appended out.old 0 (written_text r) out.new result }
{
    let mut at = put_header(out, 0, r.sections, r.points, r.trains);
    for p in 0..r.points {
        at = put_point(out, at, p, r.legs_of(PointNo(p)));
    }
    for e in 0..Railway::ENDS {
        at = put_join(out, at, e, r.joined(railway::end_at(e)));
    }
    for g in 0..Railway::SECTION_ENDS {
        at = put_signal(out, at, g, r.has_signal(railway::end_at(g)));
    }
    for x in 0..Railway::SECTIONS {
        at = put_closed(out, at, x, r.closed_at(x));
    }
    for t in 0..r.trains {
        at = put_train(out, at, t, r.train_of(t));
    }
    at
}

// The H line.
fn put_header(out: &mut [u8], at: usize, s: u8, p: u8, k: u8) -> usize
    ensures { Appended out.old at (header_text s p k) out.new result }
{
    let a = append::two(out, at, b'H', TAB);
    let b = append::number(out, a, s as u32, TAB);
    let c = append::number(out, b, p as u32, TAB);
    append::number(out, c, k as u32, LINE_END)
}

// A P line; the point counts from 0 here.
fn put_point(out: &mut [u8], at: usize, i: u8, legs: Side) -> usize
    ensures { Appended out.old at (point_line (suc i) legs) out.new result }
{
    let a = append::two(out, at, b'P', TAB);
    let b = append::number(out, a, i as u32 + 1, TAB);
    append::two(out, b, side_byte(legs), LINE_END)
}

// The J line that begins with an end, if the other end comes later.
fn put_join(out: &mut [u8], at: usize, i: u8, j: Option<End>) -> usize
    ensures { Appended out.old at (join_piece i j) out.new result }
{
    let Some(f) = j else {
        return at;
    };
    if i < railway::index_of(f) {
        let a = append::two(out, at, b'J', TAB);
        let b = put_end(out, a, railway::end_at(i), TAB);
        put_end(out, b, f, LINE_END)
    } else {
        at
    }
}

// The G line of a section end, if a signal stands there.
fn put_signal(out: &mut [u8], at: usize, i: u8, stands: bool) -> usize
    ensures { Appended out.old at (signal_piece i stands) out.new result }
{
    if stands {
        let a = append::two(out, at, b'G', TAB);
        put_end(out, a, railway::end_at(i), LINE_END)
    } else {
        at
    }
}

// The X line of a section, if it is closed; it counts from 0 here.
fn put_closed(out: &mut [u8], at: usize, i: u8, shut: bool) -> usize
    ensures { Appended out.old at (closed_piece i shut) out.new result }
{
    if shut {
        let a = append::two(out, at, b'X', TAB);
        append::number(out, a, i as u32 + 1, LINE_END)
    } else {
        at
    }
}

// A T line; the train counts from 0 here.
fn put_train(out: &mut [u8], at: usize, i: u8, t: Train) -> usize
    ensures { Appended out.old at (train_line (suc i) (line_of_train t)) out.new result }
{
    let heading = t.heading;
    let a = append::two(out, at, b'T', TAB);
    let b = append::number(out, a, i as u32 + 1, TAB);
    let c = append::two(out, b, side_byte(heading), TAB);
    let d = append::number(out, c, t.start.0 as u32 + 1, TAB);
    put_to(out, d, t.destination.0, t.weight)
}

// The end of a T line: the destination, which counts from 0 here, and the weight if it is not 1.
fn put_to(out: &mut [u8], at: usize, to: u8, weight: u8) -> usize
    ensures { Appended out.old at (line (decimal (suc to) ∷ weight_field (written_weight weight))) out.new result }
{
    if weight == 1 {
        append::number(out, at, to as u32 + 1, LINE_END)
    } else {
        let a = append::number(out, at, to as u32 + 1, TAB);
        append::number(out, a, weight as u32, LINE_END)
    }
}

// An end, and a byte behind it.
fn put_end(out: &mut [u8], at: usize, e: End, after: u8) -> usize
    ensures { Appended out.old at (end_field (field_of e) ++ (after ∷ [])) out.new result }
{
    match e {
        End::Section(n, s) => {
            let a = append::number(out, at, n.0 as u32 + 1, side_byte(s));
            append::byte(out, a, after)
        }
        End::Port(n, l) => {
            let a = append::number(out, at, n.0 as u32 + 1, leg_byte(l));
            append::byte(out, a, after)
        }
    }
}

// (By a function of this crate: a side has two bytes, its letter and its index, and `From` could give only one.)
fn side_byte(s: Side) -> u8
    ensures { result ≡ side_byte s }
{
    match s {
        Side::Up => b'u',
        Side::Down => b'd',
    }
}

fn leg_byte(l: Leg) -> u8
    ensures { result ≡ leg_byte l }
{
    match l {
        Leg::Stem => b's',
        Leg::Plus => b'+',
        Leg::Minus => b'-',
    }
}
