// Reading nets, current loops, working out and obligations.
#![tactic(auto)]
