// What is known of every design that an accepted list stands for.
#![tactic(auto)]
