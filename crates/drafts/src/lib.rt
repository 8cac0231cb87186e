// The exclusion and the rule that are being read from a text, as blocks.
#![tactic(auto)]

pub mod exclusion;
pub mod kept;
pub mod limits;
pub mod part;
pub mod rule;
