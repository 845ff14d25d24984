// The frame machine, in which straight code runs in the checker, and that the narrow core follows it: in proofs/.
#![tactic(auto)]
