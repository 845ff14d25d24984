// The twelve routines of the microcode page: their listing is in specs/, what each does is proved in proofs/.
#![tactic(auto)]
