// A reader of a case text: the text, and the place where it stands. It walks over lines of one kind, each put into the draft, and is moved on
// behind each; nothing else on the way knows the place. Other crates call `first_line` and `lines_of`, which have a plain slice. Any bytes may
// come in, and any place.
#![tactic(auto)]

ghost use Rattle.std.specs.Prelude.{◌≡◌, eqb, get_or};
ghost use Rattle.text.specs.Reading.{then};
ghost use Rattle.case_file.specs.Reading.{header_at};
ghost use Rattle.case_lines.specs.Answers.{counts_got};
ghost use Rattle.case_draft.specs.Drafting.{letter, line_into, lines_into, lines_got};
ghost use Rattle.case_walk.specs.Walking.{line_got, walked};

use case_draft::{Draft, Kind};
use text::Cursor;

// The text, and the place where the reader stands.
#[derive(Clone, Copy)]
struct Reader<'a> {
    text: &'a [u8],
    at: Cursor,
}

impl<'a> Reader<'a> {
    // A reader that stands at a place of the text.
    fn new(text: &'a [u8], at: Cursor) -> Reader<'a>
        ensures { (result.text ≡ text.entry) × (result.at ≡ at) }
    {
        Reader { text, at }
    }

    // The header line, where it stands.
    fn header(self) -> Option<(u64, u64, u64, Cursor)>
        ensures { counts_got result ≡ header_at self.entry.text.now self.entry.at.at }
    {
        case_lines::header_line(self.text, self.at)
    }

    // Whether a line of a kind begins where it stands.
    fn begins(self, kind: Kind) -> bool
        ensures { result ≡ eqb (get_or self.entry.text.now self.entry.at.at 0) (letter kind) }
    {
        text::peek(self.text, self.at) == kind.letter()
    }

    // A line of a kind, read where it stands and put into a draft; its number is n where its kind has one. It is moved on behind the line.
    fn line(&mut self, kind: Kind, n: u64, draft: &mut Draft) -> Option<()>
        ensures text { self.new.text ≡ self.old.text }
        ensures line { walked result draft.new self.new.at.at ≡ line_into self.old.text.now kind n self.old.at.at draft.old }
    {
        let next = one_line(self.text, self.at, kind, n, draft)?;
        self.at = next;
        Some(())
    }

    // The place where it stands.
    fn place(self) -> Cursor
        ensures { result ≡ self.entry.at }
    {
        self.at
    }
}

// The text's first line.
pub fn first_line(text: &[u8]) -> Option<(u64, u64, u64, Cursor)>
    ensures { counts_got result ≡ header_at text.now 0 }
{
    Reader::new(text, Cursor { at: 0 }).header()
}

// The lines of a kind behind those before them: as many as the count says, or of a kind without a count as many as there are.
#[tactic(auto, using(crate::proofs::Walking::turns))]
pub fn lines_of(
    text: &[u8],
    kind: Kind,
    count: u64,
    earlier: Option<(Draft, Cursor)>,
) -> Option<(Draft, Cursor)>
    ensures { lines_got result ≡ then (lines_got earlier) (λ d c. lines_into text.now kind count c d) }
{
    let (mut draft, next) = earlier?;
    let mut reader = Reader::new(text, next);
    if kind.is_counted() {
        for i in 0..count {
            reader.line(kind, i + 1, &mut draft)?;
        }
    } else {
        while reader.begins(kind) {
            reader.line(kind, 0, &mut draft)?;
        }
    }
    Some((draft, reader.place()))
}

// One line of a kind, put into a draft where it is lent, for a draft is long to copy; its number is n where its kind has one. The answer is the place behind it.
#[tactic(auto, using(crate::proofs::Walking::turns))]
fn one_line(text: &[u8], c: Cursor, kind: Kind, n: u64, draft: &mut Draft) -> Option<Cursor>
    ensures { line_got result draft.new ≡ line_into text.now kind n c.at draft.old }
{
    match kind {
        Kind::P => {
            let (side, next) = case_lines::point_line(text, c, n)?;
            *draft = case_draft::put_point(*draft, n, side);
            Some(next)
        }
        Kind::J => {
            let (one, other, next) = case_lines::join_line(text, c)?;
            *draft = case_draft::put_join(*draft, one, other);
            Some(next)
        }
        Kind::G => {
            let (section, side, next) = case_lines::signal_line(text, c)?;
            *draft = case_draft::put_signal(*draft, section, side);
            Some(next)
        }
        Kind::X => {
            let (section, next) = case_lines::closed_line(text, c)?;
            *draft = case_draft::put_closed(*draft, section);
            Some(next)
        }
        Kind::T => {
            let (heading, start, destination, weight, next) = case_lines::train_line(text, c, n)?;
            *draft = case_draft::put_train(*draft, n, heading, start, destination, weight);
            Some(next)
        }
    }
}
