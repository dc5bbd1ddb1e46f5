// The definitions of a receiver and their laws, over plain numbers (specs/, proofs/): fronts by their meaning, paths by
// their worth, a receiver by what it was told. There is no code here.

#![tactic(auto)]
