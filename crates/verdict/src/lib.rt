// Steps 1 to 3 of the judge: may the request pass, and what does a grant end and give.
#![tactic(auto)]

pub mod permits;
pub mod search;
pub mod verdicts;
