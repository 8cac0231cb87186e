// Forms of texts: definitions, what they claim of the texts of a form, and the kinds of bytes as code.
#![tactic(auto)]

pub mod kind;
