// The check of a request, and of a context.
#![tactic(auto)]

pub mod context;
pub mod request;
