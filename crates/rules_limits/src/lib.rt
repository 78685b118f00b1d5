// Examples only: see specs/ and proofs/.
#![tactic(auto)]
