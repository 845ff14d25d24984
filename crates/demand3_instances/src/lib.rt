// Runs for which the hypotheses of demand 3 hold: in proofs/.
#![tactic(auto)]
