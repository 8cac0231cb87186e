// The lent list of names: its check, and looking up in it.
#![tactic(auto)]

pub mod bytes;
pub mod find;
pub mod good;
pub mod kind;
pub mod layout;
