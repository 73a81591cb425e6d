// The inner encoder (4.2 to 4.4), from the outer kept bits to the codeword's trellis part.
#![tactic(auto)]

mod parameters;
pub mod steps;

pub use parameters::Parameters;
