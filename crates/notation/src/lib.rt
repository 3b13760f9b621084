// The text form of a run file: what a line says, and what a whole text does. Definitions, and the round trips; the crate `assembly` carries
// them out.
#![tactic(auto)]

// What a proposal's line is seen to have before it is read: its entries on either side of the arrow, and whether it says how many frames are
// trimmed. `right` and `gap`: an arrow has passed, and the character before was a space.
#[derive(Clone, Copy)]
pub struct Shape {
    pub inputs: u8,
    pub outputs: u8,
    pub trimmed: u8,
    pub right: bool,
    pub gap: bool,
}
