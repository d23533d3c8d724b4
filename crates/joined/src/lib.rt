// One weight of the kernel that two filters make together: the sum over the middle channels and over the places of both kernels that add up
// to its place.
#![tactic(auto)]

pub mod places;
mod sums;
pub mod weight;
