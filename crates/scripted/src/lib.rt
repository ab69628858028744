// The script of an accepted list.
#![tactic(auto)]
