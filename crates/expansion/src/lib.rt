// The expanded interleaver, built in lent memory.
#![tactic(auto)]

pub mod steps;
