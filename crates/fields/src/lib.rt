// The fields of a line in ASCII.
#![tactic(auto)]

pub mod steps;
