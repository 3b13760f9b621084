// Kind 11: the jobs that a vault must hold before it can sign.
ghost use Rattle.std.specs.Prelude.{◌≡◌, ◌<◌, ◌≤◌};
ghost use Rattle.index.specs.Index.{IndexedEntries};
ghost use Rattle.ledger.specs.Decisions.{gated_listing, if_admitted, requiring, supplying};
ghost use Rattle.ledger.specs.Given.{Known};
ghost use Rattle.ledger.specs.Holders.{held_somewhere};

use federation::Settings;
use job_sets::JobSet;
use ledger::Listing;
use outcome::{Refusal, Verdict};
use vaults::Vault;

// The jobs that at least one correct vault holds.
fn held_somewhere(settings: Settings, vaults: [Vault; 16]) -> JobSet
    requires { settings.n ≤ 16 }
    ensures { result ≡ held_somewhere settings vaults }
{
    let mut jobs = JobSet::empty();
    for v in 0..settings.n {
        if !sets::vaults::has(settings.faulty, v) {
            jobs = jobs.union(vaults[v as usize].held);
        }
    }
    jobs
}

// Check 21, by the verdict of checks 11 to 14 with these jobs.
fn if_admitted(admission: Verdict, jobs: JobSet) -> Listing
    ensures { result ≡ if_admitted admission jobs }
{
    match admission {
        Ok(()) => decisions::list(jobs),
        Err(_) => decisions::unlist(Refusal::NoSetWorks),
    }
}

fn supply(
    state: Vault,
    elsewhere: JobSet,
    numbers: &[u16],
    sets: &[u64],
    version: u16,
    journal: &[u8],
    booked: usize,
    job: usize,
) -> Listing
    requires { (job < booked) × IndexedEntries version journal.now booked numbers.now sets.now }
    ensures { result ≡ supplying state elsewhere version journal.now booked job }
{
    let jobs = supplies::missing(
        numbers, sets, version, journal, booked, state.held, elsewhere, job,
    );
    let held = state.held.union(jobs);
    let others = state.signed.without(job);
    let admission = queries::admission(numbers, sets, version, journal, booked, held, others, job);
    if_admitted(admission, jobs)
}

fn require(
    settings: Settings,
    vaults: [Vault; 16],
    state: Vault,
    numbers: &[u16],
    sets: &[u64],
    version: u16,
    journal: &[u8],
    booked: usize,
    job: usize,
) -> Listing
    requires { (settings.n ≤ 16) × (job < booked) × IndexedEntries version journal.now booked numbers.now sets.now }
    ensures { result ≡ requiring state (held_somewhere settings vaults) version journal.now booked job }
{
    if state.signed.has(job) {
        return decisions::list(JobSet::empty());
    }
    let elsewhere = held_somewhere(settings, vaults);
    supply(
        state, elsewhere, numbers, sets, version, journal, booked, job,
    )
}

// `state` is the vault that the step names.
pub fn dependencies(
    gate: Verdict,
    settings: Settings,
    vaults: [Vault; 16],
    state: Vault,
    numbers: &[u16],
    sets: &[u64],
    version: u16,
    journal: &[u8],
    booked: usize,
    job: usize,
) -> Listing
    requires { (settings.n ≤ 16) × Known gate booked job × IndexedEntries version journal.now booked numbers.now sets.now }
    ensures { result ≡ gated_listing gate (requiring state (held_somewhere settings vaults) version journal.now booked job) }
{
    match gate {
        Ok(()) => require(
            settings, vaults, state, numbers, sets, version, journal, booked, job,
        ),
        Err(why) => decisions::unlist(why),
    }
}
