// Jobs: their entries, and the labels and tapes in them.
#![tactic(auto)]

pub mod entries;
pub mod labels;

pub use entries::{frames, label, used};

// A tape: its label, eight characters as a little-endian number, and its frames.
#[derive(Clone, Copy)]
pub struct Entry {
    pub label: u64,
    pub frames: u32,
}

// Kind 0 is an accession and 1 a migration; inputs are entries 0 to 3 and outputs 4 to 7. The trimmed frames are those that a migration cuts
// off (M-102); a version 1 record has none.
#[derive(Clone, Copy)]
pub struct Job {
    pub kind: u8,
    pub drive: u8,
    pub inputs: u8,
    pub outputs: u8,
    pub entries: [Entry; 8],
    pub trimmed: u32,
}
