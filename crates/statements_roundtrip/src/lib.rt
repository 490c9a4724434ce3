// The statement on reader and writer together, of the calls that run. No code: specs/ has the statement, proofs/ its proof.
#![tactic(auto)]
