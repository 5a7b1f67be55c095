// What requests change and what they leave, over the definitions of the crate modbus: specs/ has the statements, proofs/ the theorems. There is no
// code here.
#![tactic(auto)]
