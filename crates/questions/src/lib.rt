// What a step answers and lists that looks at all vaults: the generations of a job, its missing dependencies, and the vaults that equivocate.
#![tactic(auto)]

mod asking;

pub use asking::look;
use federation::Settings;
use job_sets::JobSet;
use vaults::{Vault, Votes};

// What a step looks at that looks at all vaults, and what is known of those that equivocate.
#[derive(Clone, Copy)]
pub struct Books {
    pub settings: Settings,
    pub booked: usize,
    pub arrivals: usize,
    pub vaults: [Vault; 16],
    pub votes: [Votes; 128],
    pub named: Option<JobSet>,
}
