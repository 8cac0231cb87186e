#![tactic(auto)]

// Policies as text: definitions. Their laws and the code are above this crate.
