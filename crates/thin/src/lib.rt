// Lean plans from generous ones: what the call that thins a plan answers. specs/ has the law on moves under sets of open trains, what thinning is and the statement on it; proofs/
// that it follows from what the call promises. The call is in crate thin_call.
#![tactic(auto)]
