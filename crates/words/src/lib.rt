#![tactic(auto)]

// Bytes and the numbers in them: definitions. Their laws and the code are above this crate.
