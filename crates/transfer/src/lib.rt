// Transfer frames on the channel (000, 3.3): the synchronization marker, and behind it the randomized frame.
#![tactic(auto)]

pub mod steps;
mod tables;
