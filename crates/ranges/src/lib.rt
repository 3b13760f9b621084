// Frame counts that are known only within ranges (document 02, M-110): an estimate, what is answered of it, and what that means; definitions and
// proofs, no code but the types.
#![tactic(auto)]

use outcome::Outcome;

// At least `lowest` frames, and at most `highest`.
#[derive(Clone, Copy)]
pub struct Range {
    pub lowest: u32,
    pub highest: u32,
}

// A job as `Job` has it, with a range for each entry in place of its frames, and the exact count of frames that are trimmed.
#[derive(Clone, Copy)]
pub struct Estimate {
    pub kind: u8,
    pub drive: u8,
    pub inputs: u8,
    pub outputs: u8,
    pub labels: [u64; 8],
    pub ranges: [Range; 8],
    pub trimmed: u32,
}

// Done with the value 0 and each entry's tightest range, or refused with the ranges as they were.
#[derive(Clone, Copy)]
pub struct Tightened {
    pub outcome: Outcome,
    pub ranges: [Range; 8],
}

// The least that can go in and the most; or that can come out, with what is trimmed. Five numbers of 32 bits fit 64.
#[derive(Clone, Copy)]
pub struct Span {
    pub least: u64,
    pub most: u64,
}
