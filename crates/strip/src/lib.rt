// One strip of a layer, from its map and kernel to its outputs. `finish_strip` is the whole; the other modules are its steps.
#![tactic(auto)]

mod channel;
pub mod finish;
mod held;
mod origin;
