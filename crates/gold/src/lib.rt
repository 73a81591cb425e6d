// The Gold sequences of the physical-layer randomizer, and its turns (000, annex E).
#![tactic(auto)]

pub mod steps;
