// The m-sequences of the physical-layer randomizer (000, annex E).
#![tactic(auto)]

pub mod steps;
mod table;
