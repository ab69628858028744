// The rules of the cells over trits.
#![tactic(auto)]
