// The BCH code (004, 4.3).
#![tactic(auto)]

pub mod steps;
mod table;
