// Each refusal at least once, on a small file, and the order in which they are told: cases computed from the definitions of `ec20`, in
// proofs/. Nobody cites them, so they stand apart, and a change of what others cite does not wait for them. There is no code here.
#![tactic(auto)]
