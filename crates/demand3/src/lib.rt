#![tactic(auto)]

// The proof of demand 3, and of what follows from it: proofs alone. The claims are in crates/register/specs.
