// The row that the bench prints for a job.
#![tactic(auto)]

pub mod steps;
