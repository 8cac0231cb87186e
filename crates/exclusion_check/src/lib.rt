// The check of a rule's exclusions.
#![tactic(auto)]

pub mod exclusion;
