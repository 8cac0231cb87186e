#![tactic(auto)]

// The judgement of one request over a policy and a table: definitions. The code is above this crate.
