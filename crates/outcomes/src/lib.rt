// What a word instruction with flow does, and the laws over the width that the instructions of 16 and of 32 bits share. There is no code here.
#![tactic(auto)]
