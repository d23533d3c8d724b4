// One tile of a layer, from its map and kernel to its outputs. `finish_tile` is the whole; the other modules are its steps.
#![tactic(auto)]

mod channel;
pub mod finish;
mod origin;
