// The two entry points for rules as text: read them into an image, and write an image's rules. Each takes lent bytes of any length and content, requires
// nothing, and promises by an equation its answer and every byte of the lent output afterwards.
#![tactic(auto)]

pub mod reading;
pub mod writing;
