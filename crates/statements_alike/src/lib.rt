// The statement that records of one railway are judged, written and solved alike. No code: specs/ has the statement, proofs/ its proof.
#![tactic(auto)]
