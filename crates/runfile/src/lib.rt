// The run file: which step a kind byte asks for. The definitions of specs/ say what a whole run prints, and proofs/ that a run is one of
// demand 3's lists; the crate `run` carries it out.
#![tactic(auto)]

// The operations of a run file, and any other kind.
#[derive(Clone, Copy)]
pub enum Kind {
    Propose,
    Preflight,
    Commit,
    FaultySign,
    FaultyAcknowledge,
    Show,
    Draw,
    Generations,
    Snapshot,
    Release,
    Dependencies,
    ClientPreflight,
    Equivocating,
    Unknown,
}
