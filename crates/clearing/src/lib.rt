// What a grant does to the records of a table: what it takes from their marks, what is left of them, and whether there is room then.
#![tactic(auto)]

pub mod ending;
pub mod room;
pub mod settling;
