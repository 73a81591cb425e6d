// The vectors α and β of annex C as the code has them, 19 sizes one behind the other.
#![tactic(auto)]

pub mod steps;
mod tables;
