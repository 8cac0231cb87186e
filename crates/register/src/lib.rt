#![tactic(auto)]

// The full register of document 01, and demand 3 as a claim. Definitions and examples alone: no program keeps a register. The proof is crate demand3.
