// Kind 2: whether a vault signs a job. The index is the journal's: the operations make it, and the run keeps it.
#![tactic(auto)]

mod clients;

ghost use Rattle.std.specs.Prelude.{◌≡◌, ◌<◌};
ghost use Rattle.index.specs.Index.{IndexedEntries};
ghost use Rattle.ledger.specs.Decisions.{admission_at, consent, consenting, gated, preflighting};
ghost use Rattle.ledger.specs.Given.{Known};

pub use clients::client_preflight;
use ledger::{Change, Decision};
use outcome::Verdict;
use vaults::{Consent, Signing, Vault};

// Checks 11 to 14 of a job at a vault.
fn admission_at(
    state: Vault,
    numbers: &[u16],
    sets: &[u64],
    version: u16,
    journal: &[u8],
    booked: usize,
    job: usize,
) -> Verdict
    requires { (job < booked) × IndexedEntries version journal.now booked numbers.now sets.now }
    ensures { result ≡ admission_at state version journal.now booked job }
{
    let others = state.signed.without(job);
    queries::admission(
        numbers, sets, version, journal, booked, state.held, others, job,
    )
}

fn decide(given: Signing, signers: u16, vault: u8) -> Decision
    ensures { result ≡ consenting given.consent given.vault signers vault }
{
    let consent = given.consent;
    match consent {
        Consent::Already => decisions::answer(sets::vaults::size(signers)),
        Consent::Fresh => {
            let state = given.vault;
            decisions::vote(signers, vault, Change::Sign(state))
        }
        Consent::Denied(why) => decisions::refuse(why),
    }
}

// On the verdict of checks 11 to 14.
fn consent(state: Vault, admission: Verdict, signers: u16, vault: u8, job: usize) -> Decision
    ensures { result ≡ consent state admission signers vault job }
{
    decide(state.preflight(admission, job), signers, vault)
}

// Checks 11 to 14 are made only for a job that the vault has not signed.
fn consult(
    state: Vault,
    numbers: &[u16],
    sets: &[u64],
    version: u16,
    journal: &[u8],
    booked: usize,
    signers: u16,
    vault: u8,
    job: usize,
) -> Decision
    requires { (job < booked) × IndexedEntries version journal.now booked numbers.now sets.now }
    ensures { result ≡ preflighting state version journal.now booked signers vault job }
{
    if state.signed.has(job) {
        return decisions::answer(sets::vaults::size(signers));
    }
    let verdict = admission_at(state, numbers, sets, version, journal, booked, job);
    consent(state, verdict, signers, vault, job)
}

pub fn preflight(
    gate: Verdict,
    state: Vault,
    numbers: &[u16],
    sets: &[u64],
    version: u16,
    journal: &[u8],
    booked: usize,
    signers: u16,
    vault: u8,
    job: usize,
) -> Decision
    requires { Known gate booked job × IndexedEntries version journal.now booked numbers.now sets.now }
    ensures { result ≡ gated gate (preflighting state version journal.now booked signers vault job) }
{
    match gate {
        Ok(()) => consult(
            state, numbers, sets, version, journal, booked, signers, vault, job,
        ),
        Err(why) => decisions::refuse(why),
    }
}
