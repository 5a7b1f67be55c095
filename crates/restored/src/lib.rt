// What a salvage keeps and restores (document 02, x), over its definition: specs/ has the statements, proofs/ the theorems. There is no code here.
#![tactic(auto)]
