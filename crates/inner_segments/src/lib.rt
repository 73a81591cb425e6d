// The inner trellis by segments (4.2 to 4.4, 6), from the outer kept bits to the codeword's trellis part.
#![tactic(auto)]

pub mod steps;
