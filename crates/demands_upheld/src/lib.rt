// Statements and proofs only: see specs/ and proofs/.
#![tactic(auto)]
