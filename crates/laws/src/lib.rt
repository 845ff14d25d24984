// Demands 1 and 2 as theorems about the definitions of `machine`: the statements and proofs are in proofs/.
#![tactic(auto)]
