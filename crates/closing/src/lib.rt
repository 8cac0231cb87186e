// One entry point: close a context. It takes lent bytes of any length and content, requires nothing, and promises by an equation its answer and every lent
// byte afterwards.
#![tactic(auto)]

pub mod calls;
