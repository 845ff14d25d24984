// What a short instruction owes, in specs/, and that the page's routine pays it, in proofs/.
#![tactic(auto)]
