// Step 3 of the judge: the tally of an exclusion.
#![tactic(auto)]

pub mod counting;
pub mod deed;
pub mod tallies;
