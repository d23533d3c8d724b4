// A layer: its figures, the sizes that come of them, its tiles and its strips, and the layout of its kernel.
#![tactic(auto)]

pub mod numbers;
pub mod place;
pub mod planes;
pub mod shape;
pub mod sizes;
pub mod strips;
