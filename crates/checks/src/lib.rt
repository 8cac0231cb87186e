// Three entry points, which judge nothing: check a policy, check a table under a policy, make a fresh table in a lent buffer. Each takes lent bytes of any
// length and content, requires nothing, and promises by an equation its answer and every lent byte afterwards.
#![tactic(auto)]

pub mod calls;
