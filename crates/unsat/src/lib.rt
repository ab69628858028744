// What unsat says of a design.
#![tactic(auto)]
