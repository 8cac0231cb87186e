#![tactic(auto)]

// Laws of the definitions of format: proofs alone.
