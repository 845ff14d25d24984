// Paths of the narrow core through the page: in proofs/.
#![tactic(auto)]
