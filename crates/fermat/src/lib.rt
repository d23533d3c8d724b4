// The rings modulo the Fermat numbers: the numbers of each, and in `specs/` the transform of any length at any root, with its laws.
#![tactic(auto)]

pub mod field;
