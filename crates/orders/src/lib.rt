// Moves to named places, in any order and back (document 02, xiv), over the mover's definition: specs/ has the statements, proofs/ the theorems. There is no
// code here.
#![tactic(auto)]
