// Two logs of movements compared, that of the panel and that of the axle counters: an entry of a log, and what a comparison answers. specs/ has the definitions and the statement,
// proofs/ that it follows from what a comparison promises. The call is in crate logs_judge.
#![tactic(auto)]

use railway::Refusal;

// An entry of a log: a train, and the section that it entered. Both count from 0, as in the record.
#[derive(Clone, Copy)]
pub struct Entry {
    pub train: u8,
    pub section: u8,
}

// What a comparison answers: the logs agree; the lowest train that differs, counted from 0; or a refusal.
#[derive(Clone, Copy)]
pub enum Verdict {
    Agree,
    Differ(u8),
}
