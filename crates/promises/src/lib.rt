// What a caller may conclude from the answers of the crate calls is in specs/, and proved in proofs/; there is no code.
#![tactic(auto)]
