// What every refusal of the list reader has.
#![tactic(auto)]
