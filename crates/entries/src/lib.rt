// The entries of a memory that is said to hold an expanded interleaver, held against what they should be.
#![tactic(auto)]

pub mod steps;
