// The custody ledger: what it keeps, what a step decides and changes, and demand 3 with its proof. It has no functions: `books` keeps a ledger,
// `decisions` says what each kind of step decides, `operations` has a function for each kind on a ledger and a lent journal.
#![tactic(auto)]

use federation::Settings;
use job_sets::JobSet;
use outcome::Outcome;
use vaults::{Column, Vault, Votes};

// What a step changes: a vault that signs, holds or releases comes back in its new state; of a faulty vault only its vote is recorded; a snapshot's visit
// leaves the jobs seen so far. A client's counted request leaves its history at the vault, with a new signature or without one.
#[derive(Clone, Copy)]
pub enum Change {
    Nothing,
    Book,
    Sign(Vault),
    Hold(Vault),
    Release(Vault),
    Record(Column),
    See(JobSet),
    Count(History),
    Grant(Grant),
}

// A client (document 02 calls it a desk) and its last fifteen counted requests at the vault that the step names: a bit each, the newest lowest, set where it
// brought a new signature.
#[derive(Clone, Copy)]
pub struct History {
    pub client: u8,
    pub requests: u16,
}

// A vault that signs at a client's request.
#[derive(Clone, Copy)]
pub struct Grant {
    pub vault: Vault,
    pub history: History,
}

#[derive(Clone, Copy)]
pub struct Decision {
    pub outcome: Outcome,
    pub change: Change,
}

// Votes are kept for each job; order has the jobs in the order of their arrival; next is the vault that a snapshot visits next, and seen the jobs that its
// round has seen; histories are those of the eight clients at vault 0, then at vault 1, and so on.
#[derive(Clone, Copy)]
pub struct Ledger {
    pub settings: Settings,
    pub booked: usize,
    pub arrivals: usize,
    pub next: u8,
    pub seen: JobSet,
    pub votes: [Votes; 128],
    pub order: [u8; 128],
    pub vaults: [Vault; 16],
    pub histories: [u16; 128],
}

// What a step answers, and the ledger afterwards.
#[derive(Clone, Copy)]
pub struct Reply {
    pub outcome: Outcome,
    pub ledger: Ledger,
}

// What a step answers, and the numbers that it lists, all below 128; a refusal lists none.
#[derive(Clone, Copy)]
pub struct Listing {
    pub outcome: Outcome,
    pub members: JobSet,
}
