// The order of work (design.rs, `Design::verify`): its model, and what its steps mean, in specs/; their
// laws in proofs/.
#![tactic(auto)]
