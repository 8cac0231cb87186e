// Laws of the definitions of xml: proofs alone.

#![tactic(auto)]
