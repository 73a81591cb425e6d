// The outer trellis by segments (4.2, 6).
#![tactic(auto)]

pub mod steps;
