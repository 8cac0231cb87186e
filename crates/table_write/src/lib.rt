// Tables written: records put at their places, and the blocks around them.
#![tactic(auto)]

pub mod places;
pub mod write;
