// The main theorems of the library, each stated in full: see proofs/Claims.antt.

#![tactic(auto)]
