// The sample co-operative of document 01: its image is a definition, and what holds of it is computed in the proofs.

#![tactic(auto)]
