// The reader of policies as text: which byte of a text is the first bad one, and whether the text is whole.
#![tactic(auto)]

mod attribute;
mod context;
mod element;
pub mod misfit;
pub mod reached;
mod reader;
mod reading;
mod run;
mod scan;
mod table;
mod tag;
mod word;
