// The railway record: sections, points, trains, joins, signals and closed sections in tables of fixed size. It goes by value, and is
// small: what an end is joined to stands there as one byte. Every lookup and every update is total: what no railway can have is joined
// to nothing, has no signal, is not closed, and changes nothing.
// The test of a record, rows 3 to 8, 13 and 16 of the table of numbers, is the crate `railway_acceptance`.
#![tactic(auto)]

ghost use Rattle.std.specs.Prelude.{◌≡◌, get_or};
ghost use Rattle.railway.specs.declared.Railway.{Railway};
ghost use Rattle.railway.specs.Bounds.{fewest_sections, fewest_trains, most_sections, most_points, most_trains, least_weight, most_weight, section_ends, all_ends};
ghost use Rattle.railway.specs.Ends.{opposite, side_index, leg_index, end_index, side_at, leg_at, end_at, port_side};
ghost use Rattle.railway.specs.Record.{no_link, no_train, empty_railway, joined_by, link_at, flag_at, joined};
ghost use Rattle.railway.specs.Record.{has_signal, is_closed, legs_of, train_of, side_of, with_join, with_signal};
ghost use Rattle.railway.specs.Record.{with_legs, with_train, with_closed};
ghost use Rattle.railway.specs.Refusals.{number, rank};
ghost use Rattle.railway.specs.Lent.{LinksOf, SignalsOf, ClosedOf};

#[derive(Clone, Copy, PartialEq, Eq)]
pub enum Side {
    Up = 1,
    Down = 0,
}

#[derive(Clone, Copy, PartialEq, Eq)]
pub enum Leg {
    Stem,
    Plus,
    Minus,
}

// The document's number less one.
#[derive(Clone, Copy, PartialEq, Eq)]
pub struct SectionNo(pub u8);

// The document's number less one.
#[derive(Clone, Copy, PartialEq, Eq)]
pub struct PointNo(pub u8);

#[derive(Clone, Copy, PartialEq, Eq)]
pub enum End {
    Section(SectionNo, Side),
    Port(PointNo, Leg),
}

// The side that a point's legs lie on.
#[derive(Clone, Copy, PartialEq, Eq)]
pub struct Legs {
    pub side: Side,
}

#[derive(Clone, Copy, PartialEq, Eq)]
pub struct Train {
    pub heading: Side,
    pub start: SectionNo,
    pub destination: SectionNo,
    pub weight: u8,
}

// Why a case, a record, a table, a plan or a report is refused, in the order in which they are given. Each variant is the word that the
// table of numbers has for it in its second column (docs/FORMATS.md); `number` gives the number.
#[derive(Clone, Copy, PartialEq, Eq, PartialOrd, Ord)]
pub enum Refusal {
    Length,
    Form,
    Count,
    Weight,
    Unknown,
    Join,
    Loose,
    Chain,
    Double,
    Place,
    Mismatch,
    Space,
    PlanForm,
    PlanFault,
    Report,
    Stranded,
    Log,
}

// Legs by point; links by end, in the order of `index_of`; signals by section end; closed sections; the roster by train. A link is the byte of the
// end that is joined there, which is its index, or any byte past the last end's for no join.
#[derive(Clone, Copy)]
pub struct Railway {
    pub sections: u8,
    pub points: u8,
    pub trains: u8,
    pub legs: [Legs; Railway::POINTS as usize],
    pub links: Links,
    pub signals: Signals,
    pub closed: Closed,
    pub roster: [Train; Railway::TRAINS as usize],
}

// The links of a record, its signals and its closed sections, as they are lent to functions that ask them many times.
pub type Links = [u8; Railway::ENDS as usize];

pub type Signals = [bool; Railway::SECTION_ENDS as usize];

pub type Closed = [bool; Railway::SECTIONS as usize];

impl Railway {
    // The bounds of a railway.
    pub const FEWEST_SECTIONS: u8 = 1;

    pub const SECTIONS: u8 = 48;

    pub const POINTS: u8 = 16;

    pub const FEWEST_TRAINS: u8 = 1;

    pub const TRAINS: u8 = 4;

    // What a move of a train may cost: its weight.
    pub const LEAST_WEIGHT: u8 = 1;

    pub const MOST_WEIGHT: u8 = 255;

    pub const SECTION_ENDS: u8 = 2 * Railway::SECTIONS;

    pub const ENDS: u8 = Railway::SECTION_ENDS + 3 * Railway::POINTS;

    // The byte that is written for no join.
    pub const NO_LINK: u8 = 255;

    // The record with nothing in it. Its promise also ties the constants to the numbers that the definitions speak of.
    pub fn empty() -> Railway
        ensures empty { result ≡ empty_railway }
        ensures sections { (Self.FEWEST_SECTIONS ≡ fewest_sections) × (Self.SECTIONS ≡ most_sections) }
        ensures points { Self.POINTS ≡ most_points }
        ensures trains { (Self.FEWEST_TRAINS ≡ fewest_trains) × (Self.TRAINS ≡ most_trains)
            × (Self.LEAST_WEIGHT ≡ least_weight) × (Self.MOST_WEIGHT ≡ most_weight) }
        ensures ends { (Self.SECTION_ENDS ≡ section_ends) × (Self.ENDS ≡ all_ends) × (Self.NO_LINK ≡ no_link) }
    {
        let up = Legs { side: Side::Up };
        let t = no_train();
        let legs = [up; Railway::POINTS as usize];
        let roster = [t; Railway::TRAINS as usize];
        Railway {
            sections: 0,
            points: 0,
            trains: 0,
            legs: legs,
            links: [Railway::NO_LINK; Railway::ENDS as usize],
            signals: [false; Railway::SECTION_ENDS as usize],
            closed: [false; Railway::SECTIONS as usize],
            roster: roster,
        }
    }

    // What an end is joined to.
    pub fn joined(self, e: End) -> Option<End>
        ensures { result ≡ joined self e }
    {
        self.link_at(index_of(e))
    }

    // What the end with this index is joined to; nothing past the last.
    pub fn link_at(self, i: u8) -> Option<End>
        ensures { result ≡ link_at self i }
    {
        joined_by(link_in(&self.links, i))
    }

    // Whether a signal stands at this section end.
    #[tactic(auto, unfolding(crate::specs::Record::has_signal))]
    pub fn has_signal(self, e: End) -> bool
        ensures { result ≡ has_signal self e }
    {
        self.flag_at(index_of(e))
    }

    // Whether a signal stands at the section end with this index; none past the last.
    pub fn flag_at(self, i: u8) -> bool
        ensures { result ≡ flag_at self i }
    {
        signal_in(&self.signals, i)
    }

    // Whether a section is closed; one that no railway can have is not.
    pub fn closed_at(self, x: u8) -> bool
        ensures { result ≡ is_closed self x }
    {
        closed_in(&self.closed, x)
    }

    // The side of a point's legs; up for a point that is not there.
    #[tactic(auto, unfolding(crate::specs::Record::legs_of))]
    pub fn legs_of(self, n: PointNo) -> Side
        ensures { result ≡ legs_of self n.0 }
    {
        if self.points <= n.0 {
            return Side::Up;
        }
        let none = Legs { side: Side::Up };
        self.legs.get(n.0 as usize).copied().unwrap_or(none).side
    }

    // A train, counted from 0; up from section 1 to 1, of weight 1, for one that is not there.
    #[tactic(auto, unfolding(crate::specs::Record::train_of))]
    pub fn train_of(self, t: u8) -> Train
        ensures { result ≡ train_of self t }
    {
        if self.trains <= t {
            return no_train();
        }
        self.roster.get(t as usize).copied().unwrap_or(no_train())
    }

    // The side that an end lies on.
    pub fn side_of(self, e: End) -> Side
        ensures { result ≡ side_of self e }
    {
        match e {
            End::Section(_, s) => s,
            End::Port(n, l) => port_side(self.legs_of(n), l),
        }
    }

    // The record with a join added, found from both its ends; unchanged where an end is none that a railway can have.
    #[tactic(auto, unfolding(crate::specs::Record::with_join))]
    pub fn with_join(self, a: End, b: End) -> Railway
        ensures { result ≡ with_join self a b }
    {
        let i = index_of(a);
        let j = index_of(b);
        let at = i as usize;
        let back = j as usize;
        let mut next = self;
        if i < Railway::ENDS {
            if j < Railway::ENDS {
                next.links[at] = j;
                next.links[back] = i;
            }
        }
        next
    }

    // The record with a signal added at a section end; unchanged where the end is none that a railway can have, or a port.
    #[tactic(auto, unfolding(crate::specs::Record::with_signal))]
    pub fn with_signal(self, e: End) -> Railway
        ensures { result ≡ with_signal self e }
    {
        let i = index_of(e);
        let at = i as usize;
        let mut next = self;
        if i < Railway::SECTION_ENDS {
            next.signals[at] = true;
        }
        next
    }

    // The record with a section closed; unchanged for a section that no railway can have.
    #[tactic(auto, unfolding(crate::specs::Record::with_closed))]
    pub fn with_closed(self, x: u8) -> Railway
        ensures { result ≡ with_closed self x }
    {
        let at = x as usize;
        let mut next = self;
        if x < Railway::SECTIONS {
            next.closed[at] = true;
        }
        next
    }

    // The record with the side of a point's legs set; unchanged for a point that no railway can have.
    #[tactic(auto, unfolding(crate::specs::Record::with_legs))]
    pub fn with_legs(self, n: PointNo, side: Side) -> Railway
        ensures { result ≡ with_legs self n.0 side }
    {
        let i = n.0;
        let at = i as usize;
        let legs = Legs { side: side };
        let mut next = self;
        if i < Railway::POINTS {
            next.legs[at] = legs;
        }
        next
    }

    // The record with a train set, counted from 0; unchanged for a train that no railway can have.
    #[tactic(auto, unfolding(crate::specs::Record::with_train))]
    pub fn with_train(self, t: u8, train: Train) -> Railway
        ensures { result ≡ with_train self t train }
    {
        let at = t as usize;
        let mut next = self;
        if t < Railway::TRAINS {
            next.roster[at] = train;
        }
        next
    }
}

impl Refusal {
    // The document's number. (One number after the other, for the variants stand in the order of `rank`, and a derived order goes by the discriminants.)
    pub fn number(self) -> u8
        ensures { result ≡ number self }
    {
        match self {
            Refusal::Length => 1,
            Refusal::Form => 2,
            Refusal::Count => 3,
            Refusal::Unknown => 4,
            Refusal::Join => 5,
            Refusal::Loose => 6,
            Refusal::Double => 7,
            Refusal::Place => 8,
            Refusal::Space => 9,
            Refusal::PlanForm => 10,
            Refusal::PlanFault => 11,
            Refusal::Report => 12,
            Refusal::Chain => 13,
            Refusal::Mismatch => 14,
            Refusal::Stranded => 15,
            Refusal::Weight => 16,
            Refusal::Log => 17,
        }
    }

    // Its place in the order in which numbers are given.
    pub fn rank(self) -> u8
        ensures { result ≡ rank self }
    {
        self as u8
    }
}

// The other side.
pub fn opposite(s: Side) -> Side
    ensures { result ≡ opposite s }
{
    match s {
        Side::Up => Side::Down,
        Side::Down => Side::Up,
    }
}

// The side that a port lies on, given the side of its point's legs.
fn port_side(legs: Side, l: Leg) -> Side
    ensures { result ≡ port_side legs l }
{
    match l {
        Leg::Stem => opposite(legs),
        Leg::Plus | Leg::Minus => legs,
    }
}

// What stands for a train that is not there.
fn no_train() -> Train
    ensures { result ≡ no_train }
{
    Train {
        heading: Side::Up,
        start: SectionNo(0),
        destination: SectionNo(0),
        weight: Railway::LEAST_WEIGHT,
    }
}

// The index of an end: 1d, 1u, 2d, .. and behind the section ends 1s, 1+, 1-, 2s, ..; past them all for an end that no railway can have. (Not From: `u8::from(e)` would not
// say that the byte is an index, and back from that past the last comes another end. So with sides and legs.)
pub fn index_of(e: End) -> u8
    ensures { result ≡ end_index e }
{
    match e {
        End::Section(n, s) => {
            let i = n.0;
            if i < Railway::SECTIONS {
                2 * i + side_index(s)
            } else {
                Railway::ENDS
            }
        }
        End::Port(n, l) => {
            let i = n.0;
            if i < Railway::POINTS {
                Railway::SECTION_ENDS + 3 * i + leg_index(l)
            } else {
                Railway::ENDS
            }
        }
    }
}

// The index of a section's end among its two.
pub fn side_index(s: Side) -> u8
    ensures { result ≡ side_index s }
{
    s as u8
}

fn leg_index(l: Leg) -> u8
    ensures { result ≡ leg_index l }
{
    l as u8
}

// The end of an index. (A number past the last index gives a port that no railway can have.)
#[tactic(auto, unfolding(crate::specs::Ends::end_at))]
pub fn end_at(i: u8) -> End
    ensures { result ≡ end_at i }
{
    if i < Railway::SECTION_ENDS {
        End::Section(SectionNo(i / 2), side_at(i % 2))
    } else {
        let p = i - Railway::SECTION_ENDS;
        End::Port(PointNo(p / 3), leg_at(p % 3))
    }
}

// What a byte of the links says: the end whose byte it is; nothing past the last end's.
#[tactic(auto, unfolding(crate::specs::Record::joined_by))]
pub fn joined_by(b: u8) -> Option<End>
    ensures { result ≡ joined_by b }
{
    if b < Railway::ENDS {
        Some(end_at(b))
    } else {
        None
    }
}

// The byte of an end's link, from the links of a record; past the last end the one for no join.
pub fn link_in(links: &Links, i: u8) -> u8
    ensures { (r : Railway) → LinksOf r links.now → result ≡ get_or r.links i no_link }
{
    links.get(i as usize).copied().unwrap_or(Railway::NO_LINK)
}

// Whether a signal stands at a section end, from the signals of a record; none past the last.
pub fn signal_in(signals: &Signals, i: u8) -> bool
    ensures { (r : Railway) → SignalsOf r signals.now → result ≡ flag_at r i }
{
    signals.get(i as usize).copied().unwrap_or(false)
}

// Whether a section is closed, from the closed sections of a record; one that no railway can have is not.
#[tactic(auto, unfolding(crate::specs::Record::is_closed))]
pub fn closed_in(closed: &Closed, x: u8) -> bool
    ensures { (r : Railway) → ClosedOf r closed.now → result ≡ is_closed r x }
{
    closed.get(x as usize).copied().unwrap_or(false)
}

// The side of such an index; up for any other number.
pub fn side_at(i: u8) -> Side
    ensures { result ≡ side_at i }
{
    if i == 0 { Side::Down } else { Side::Up }
}

fn leg_at(i: u8) -> Leg
    ensures { result ≡ leg_at i }
{
    match i {
        0 => Leg::Stem,
        1 => Leg::Plus,
        _ => Leg::Minus,
    }
}
