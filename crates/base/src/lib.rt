// General logic is in specs/, and its laws in proofs/; there is no code.
#![tactic(auto)]
