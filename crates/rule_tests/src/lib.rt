#![tactic(auto)]

pub mod bounds;
pub mod levels;
pub mod shapes;
pub mod tests;
