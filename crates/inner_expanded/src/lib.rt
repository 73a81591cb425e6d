// The inner encoder (4.2 to 4.4) through an expanded interleaver: interleaved positions are read, not worked out.
#![tactic(auto)]

pub mod steps;
