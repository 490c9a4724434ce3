// The case file: what a case text says of a railway and what the writer makes of one. The definitions are in specs/, the theorems in proofs/.
// Declared here is the bound of a text.
#![tactic(auto)]

// The most bytes of a case text.
pub const MOST_BYTES: usize = 4096;
