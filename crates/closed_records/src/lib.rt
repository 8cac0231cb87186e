// What a closing leaves of the records of a table.
#![tactic(auto)]

pub mod closing;
