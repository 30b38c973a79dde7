// The rules of document 01 on records (specs/) and what they guarantee (proofs/). Begin at specs/Claims.antt.
#![tactic(auto)]
