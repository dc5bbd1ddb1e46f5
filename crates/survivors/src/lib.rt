// The search for the least path, over plain numbers (specs/, proofs/): the survivors of one symbol follow from those of
// the symbol before, and the least path is read back from them. There is no code here.

#![tactic(auto)]
