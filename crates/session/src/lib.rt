// A whole session on the engine, from the fresh table to the last answer, whose contract is demand 3.
#![tactic(auto)]

pub mod run;
