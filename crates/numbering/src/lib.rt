// Blocks of two lent images, as one image: the rule blocks of the first, then the permission blocks alone of the second, numbered anew.
#![tactic(auto)]

pub mod anew;
