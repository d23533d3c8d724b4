// What crates on every subject lean on: numbered rules in a fixed order, and words set to 0.
#![tactic(auto)]

pub mod rules;
pub mod words;
