// What the map and the mover answer, by the words of the scope: the mover's lines of the table of refusals, 10 to 14, and which words a program
// reads and writes. What is said stands in specs/, the theorems in proofs/. There is no code here.
#![tactic(auto)]
