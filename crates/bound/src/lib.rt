// A scan of an accepted program makes at most W steps, and is safe at each of them. The small machine and what is promised are in
// specs/, the theorems in proofs/. There is no code here.
#![tactic(auto)]
