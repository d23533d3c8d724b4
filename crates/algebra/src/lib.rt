// Definitions and laws that the other crates cite; they stand in specs/. There is no code here.
#![tactic(auto)]
