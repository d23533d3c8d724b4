// The text of the bench program: reading its input, writing its lines.
#![tactic(auto)]

pub mod answer;
