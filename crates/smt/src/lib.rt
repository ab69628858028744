// The builder of solver calls (smt.rs, `SmtBuilder`): its model in specs/, and what the
// terms of its calls show in proofs/.
#![tactic(auto)]
