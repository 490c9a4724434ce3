// Plans: what the emitter and the checker are handed and what they answer. specs/ has the definitions, proofs/ the theorems on plans by any
// maker and on the plan that the solver's tables make.
#![tactic(auto)]

// A place in the plan's text: before its first line, or before the lines of the codes from this one on. No Option: its two cases have names in the
// theorems on plans, and None would not say that it is the first line that is due.
#[derive(Clone, Copy)]
pub enum PlanPlace {
    Top,
    From(u32),
}

// What the emitter answers, where it does not refuse: a line of so many bytes was written, or as many whole lines as had room, and the next place; the
// plan has ended; there is no plan.
#[derive(Clone, Copy)]
pub enum Emission {
    Line(usize, PlanPlace),
    End,
    NoPlan,
}

// The checker's state: no line taken; or the first line's figure, and the lowest code that may still come. No Option: Begun names what the two numbers
// are of, which Some of a pair would not.
#[derive(Clone, Copy)]
pub enum CheckerState {
    Fresh,
    Begun(u32, u32),
}
