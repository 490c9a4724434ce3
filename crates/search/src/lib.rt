// A search that is looked into between its rounds: what it carries from call to call, and what its calls answer. specs/ has the definitions and the statement over whole lists
// of calls, proofs/ that it follows from what a call promises. The calls are in crate search_calls.
#![tactic(auto)]

use solver_marks::MARKS;

// What a search carries between calls, beside what it is lent: how many rounds are finished, whether it has ended, and the number of a round before which none brings figures:
// the next that does, unless it is the very next; the largest number where none does any more.
// Whether it has ended stands beside what is coming, for a search that goes on may have nothing coming, and C hands in any three numbers (`AllStandForThemselves`).
#[derive(Clone, Copy)]
pub struct Search {
    pub rounds: u32,
    pub ended: bool,
    pub coming: u32,
}

// The marks of its rounds, which are lent too.
pub type Marks = [u32; MARKS];

// What a round leaves: the search goes on, or has ended.
#[derive(Clone, Copy)]
pub enum Stage {
    Going,
    Ended,
}

// What a placement shows: its figure, that none has come yet, or that it has none.
#[derive(Clone, Copy)]
pub enum Seen {
    Figure(u32),
    NotYet,
    NoFigure,
}
