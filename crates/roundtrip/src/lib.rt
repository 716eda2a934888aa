// A label printed and read back, and texts that say the same: laws over the definitions of labels, in the proofs.

#![tactic(auto)]
