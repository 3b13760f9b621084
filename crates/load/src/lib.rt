// Test loads (docs/LOADS.md): what the draws choose, the records and steps of a load, the whole file, and what every load keeps. It has no functions; the
// crate `load_writer` writes a load.
#![tactic(auto)]

// The faulty vaults are `b` in a row from `start` on, rounds begin at vault `turn`, and `first` is the first draw.
#[derive(Clone, Copy)]
pub struct Plan {
    pub n: u8,
    pub b: u8,
    pub start: u8,
    pub turn: u8,
    pub first: u32,
}

// A step with its arguments; a proposal names the job whose record it carries.
#[derive(Clone, Copy)]
pub enum Step {
    Propose(u8),
    Preflight(u8, u8),
    Commit(u8, u8, u16),
    FaultySign(u8, u8),
    FaultyAcknowledge(u8, u8),
    Show(u8),
    Draw(u8),
    Generations(u8),
}
