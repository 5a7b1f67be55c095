// The table of refusals, 1 to 8: what each line says, in specs/, and that the check answers as the table says, in proofs/. There is no code
// here.
#![tactic(auto)]
