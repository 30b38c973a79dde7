// Definitions and laws on tests and lists that are about nothing of this project: see specs/ and proofs/.
#![tactic(auto)]
