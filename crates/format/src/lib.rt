// The images of document 01, policy, table, record and request: the types of the answers. Their laws and the code of the checks are above this crate.
#![tactic(auto)]

pub mod answer;
