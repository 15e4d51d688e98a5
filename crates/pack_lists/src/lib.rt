// Question 3, of a pack's definitions, and question 4, of its literals.
#![tactic(auto)]

pub mod definitions;
pub mod literals;
