// What the filters of a macroblock have in common: their answer here; under specs/ and proofs/ what holds for a fetch and two passes
// over any filter set. Each set's code stands in a crate of its own: `sixtap`, `bilinear`.
#![tactic(auto)]

// A selector exceeds 7.
#[derive(Clone, Copy, Debug, PartialEq, Eq)]
pub struct BadSelector;

// The macroblock beside the answer. Not within it: the block beside a refusal is promised to be all zeros (docs/MODEL.md; the edit
// `ones_beside_a_refusal` of sixtap).
#[derive(Clone, Copy)]
pub struct FilteredMb {
    pub answer: Result<(), BadSelector>,
    pub block: [u8; 256],
}
