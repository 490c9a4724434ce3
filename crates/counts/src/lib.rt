// How many placements have each figure (document 02, Q-8): what is promised of counting them in a figure table, and
// what follows, stand in `specs/`; the call is in crate `counts_call`. Here are the places of the counts.
#![tactic(auto)]

// So many counts there are: of the figures 0 to 254 one each, of all greater figures one, of the placements without a figure one.
pub const CLASSES: usize = 257;

// Where the greater figures are counted, all together: a smaller one is counted at its own number.
pub const GREATER: usize = 255;

// Where the placements without a figure are counted.
pub const WITHOUT: usize = 256;
