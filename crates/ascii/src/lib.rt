// Text in ASCII: words, numbers in decimal, lines of numbers, and the text of a refusal.
#![tactic(auto)]

pub mod steps;
