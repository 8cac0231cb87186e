// Two entry points, which judge a request: decide, preview. Each takes lent bytes of any length and content, requires nothing, and promises by an equation
// its answer and every lent byte afterwards.
#![tactic(auto)]

pub mod deciding;
pub mod examining;
