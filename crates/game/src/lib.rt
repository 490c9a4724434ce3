// The game between signalman and trains: specs/ has the definitions, proofs/ the theorem on whole plays and the laws of moves.
#![tactic(auto)]
