// The pseudo-randomizer (000, 3.2).
#![tactic(auto)]

pub mod steps;
