// The order of the nodes and the loop that is named: definitions and theorems, no code.
#![tactic(auto)]
