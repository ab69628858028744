// How many call words a design makes.
#![tactic(auto)]
