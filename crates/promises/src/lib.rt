// No code: what the proved calls promise together, in proofs/.
#![tactic(auto)]
