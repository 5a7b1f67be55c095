// The moved program on the exchanged table does as the old one on the old table. What is renamed stands in specs/, the theorems in proofs/.
// There is no code here.
#![tactic(auto)]
