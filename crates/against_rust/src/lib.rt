// The order of work held against the Rust's answers.
#![tactic(auto)]
