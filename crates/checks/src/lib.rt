// The numbered rules of a layer and of a call, in table order: the planner makes 1 to 9 with 23 after 7, a call goes on to 17.
#![tactic(auto)]

pub mod calls;
pub mod method;
pub mod planner;
