// Demand 3: its statement is in specs/Demand3.antt, its proof in proofs/.
#![tactic(auto)]
