#![tactic(auto)]

// Laws of the definitions of words: proofs alone.
