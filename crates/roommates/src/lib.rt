// The two phases are definitions in specs/ and theorems in proofs/; the crates above have the code. Both speak of the stage of a working.
#![tactic(auto)]

// Phase one; phase two; or ended, with its verdict: none in phase one, none in phase two, or a pairing (for shorten: lists).
#[derive(Clone, Copy, PartialEq, Eq)]
pub enum Stage {
    Proposing,
    Cutting,
    NoneOne,
    NoneTwo,
    Paired,
}
