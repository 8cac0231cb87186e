// The check sum as code: two wrapping sums over 32-bit words.
#![tactic(auto)]

pub mod sum;
