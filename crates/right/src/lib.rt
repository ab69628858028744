// Which designs are right: those that no fault of document 01 speaks against.
#![tactic(auto)]
