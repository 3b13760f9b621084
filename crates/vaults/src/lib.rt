// A vault's two sets of jobs, which go into a step and come back from it, and the votes of the vaults on a job.
#![tactic(auto)]

mod vaults;
mod voting;

use job_sets::JobSet;
use outcome::Refusal;

// The jobs that a vault holds and those that it has signed and not released.
#[derive(Clone, Copy)]
pub struct Vault {
    pub held: JobSet,
    pub signed: JobSet,
}

// A vault's answer to a preflight.
#[derive(Clone, Copy)]
pub enum Consent {
    Already,
    Fresh,
    Denied(Refusal),
}

#[derive(Clone, Copy)]
pub struct Signing {
    pub consent: Consent,
    pub vault: Vault,
}

// The votes on a job: the vaults whose signature of it is recorded, and those whose acknowledgement is.
#[derive(Clone, Copy)]
pub struct Votes {
    pub signatures: u16,
    pub acknowledgements: u16,
}

#[derive(Clone, Copy)]
pub enum Column {
    Signatures,
    Acknowledgements,
}
