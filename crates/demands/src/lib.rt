// The three demands as theorems. Read specs/Demand1, Demand2 and Demand3: each holds a demand's words and what is promised of the public
// definitions of crates/ec20/specs. The theorems are in proofs/. There is no code here.
#![tactic(auto)]
