// What a report of clashes is, what it says of a list whose declarations agree, and which text is handed back, over the definitions of the crate units:
// specs/ has the statements, proofs/ the theorems. There is no code here.
#![tactic(auto)]
