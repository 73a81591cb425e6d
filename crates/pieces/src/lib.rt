// The pieces of a block's hard part (004, 4.3), each coded by itself.
#![tactic(auto)]

pub mod steps;
