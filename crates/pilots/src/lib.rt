// Pilots (5.3): labels as slots, and pilots among them.
#![tactic(auto)]

pub mod steps;
