// From a codeword to labels: the row-column interleaver (4.5) and the numbers that its rows are (4.6).
#![tactic(auto)]

pub mod steps;
