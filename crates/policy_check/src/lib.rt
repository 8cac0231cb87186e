#![tactic(auto)]

pub mod block;
pub mod permission;
pub mod policy;
pub mod rule;
pub mod stamp;
