// Demand 3, said of the two public promises, stands in specs/: this crate has no code.
#![tactic(auto)]
