// Shortest runs between sections, by heading. specs/ has what a run is, what a table of them says, what the call for a table promises and what runs say of figures; proofs/ that it follows from
// that promise. The call is in crate runs_tables.
#![tactic(auto)]
