// What the program `cases` draws, what it writes of the transform pair, and how it writes a line with numbers in it.
#![tactic(auto)]

pub mod pairs;
pub mod sequence;
pub mod text;
