// The inner encoder, a bit at a time (4.2, 4.4): its trellis, and where each register goes on.
#![tactic(auto)]

pub mod steps;
