// The claim that hidden rows stay hidden (demand 3) is in `specs/`, its proof in `proofs/`; there is no code.

#![tactic(auto)]
