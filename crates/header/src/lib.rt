// The frame header (5.1, 5.2): marker and descriptor.
#![tactic(auto)]

mod choice;
pub mod steps;

pub use choice::Pilots;
