// A policy's rules written as text, in the one spelling of W5.
#![tactic(auto)]

pub mod exclusion;
pub mod put;
pub mod rule;
pub mod spelling;
pub mod text;
