// The file that the mover leaves is the old program with its D numbers renamed, and the check answers of it as of the old one. What is
// promised stands in specs/, the theorems in proofs/. There is no code here.
#![tactic(auto)]
