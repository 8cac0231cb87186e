// What the tags of a text say.
#![tactic(auto)]

pub mod cut;
pub mod number;
pub mod rows;
pub mod span;
pub mod tag;
