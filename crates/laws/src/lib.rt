// What is proved of the rules alone stands in specs/: this crate has no code.
#![tactic(auto)]
