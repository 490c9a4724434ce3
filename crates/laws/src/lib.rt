// Definitions and laws that several crates cite. There is no code here: specs/ has the definitions, proofs/ the laws.
#![tactic(auto)]
