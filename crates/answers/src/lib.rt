// What the entry points answer, and the same in four numbers, as C gets it.
#![tactic(auto)]

pub mod numbers;
pub mod reply;
