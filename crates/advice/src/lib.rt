// Which signal would help: what a planner is told of a case. specs/ has the definitions and the statement, proofs/ that it follows from what the call promises. The call is in crate advice_call.
#![tactic(auto)]

use railway::{Refusal, SectionNo, Side};

// What is advised: no signal is needed, for the start has a figure; the first section end where one signal more gives it one; no single signal does; or a refusal.
#[derive(Clone, Copy)]
pub enum Help {
    NotNeeded,
    Signal(SectionNo, Side),
    NoneHelps,
}
