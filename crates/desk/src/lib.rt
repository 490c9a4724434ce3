// A desk, at which a plan is followed report by report. specs/ has the definitions and the statement over whole lists of reports, proofs/ that it follows from what a call promises.
// The desk and its calls are in crate desk_calls.
#![tactic(auto)]
