// A request beside the rules of a policy: which it fits, which step of them it is, and which run places it shares with records.
#![tactic(auto)]

pub mod fits;
pub mod masks;
pub mod rules;
pub mod steps;
