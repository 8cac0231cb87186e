// What the records of a table say to a request: which run places are open, and what its user did in them.
#![tactic(auto)]

pub mod finding;
pub mod pasts;
