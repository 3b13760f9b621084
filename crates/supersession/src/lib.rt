// Kind 10: a superseded signature is released. The index is the journal's, as for a preflight.
#![tactic(auto)]

ghost use Rattle.std.specs.Prelude.{◌≡◌, ◌<◌};
ghost use Rattle.index.specs.Index.{IndexedEntries};
ghost use Rattle.ledger.specs.Decisions.{gated, releasing, superseded_at, supersession};
ghost use Rattle.ledger.specs.Given.{Known};

use ledger::{Change, Decision};
use outcome::{Outcome, Refusal, Verdict};
use vaults::Vault;

// Check 20: the vault holds the other job, which is a rival.
#[tactic(auto, unfolding(ledger::specs::Decisions::superseded_at))]
fn is_superseded(
    state: Vault,
    numbers: &[u16],
    sets: &[u64],
    version: u16,
    journal: &[u8],
    booked: usize,
    job: usize,
    rival: usize,
) -> bool
    requires { (job < booked) × (rival < booked) × IndexedEntries version journal.now booked numbers.now sets.now }
    ensures { result ≡ superseded_at state version journal.now booked job rival }
{
    job != rival
        && state.held.has(rival)
        && rivalry::conflict(numbers, sets, version, journal, booked, job, rival)
}

// Check 4 of the rival, then 19 and 20.
fn supersession(
    state: Vault,
    numbers: &[u16],
    sets: &[u64],
    version: u16,
    journal: &[u8],
    booked: usize,
    job: usize,
    rival: usize,
) -> Verdict
    requires { (job < booked) × IndexedEntries version journal.now booked numbers.now sets.now }
    ensures { result ≡ supersession state version journal.now booked job rival }
{
    if !journal::is_booked(version, journal, booked, rival) {
        return Err(Refusal::NotBooked);
    }
    if !state.signed.has(job) {
        return Err(Refusal::NotSignedHere);
    }
    if is_superseded(state, numbers, sets, version, journal, booked, job, rival) {
        return Ok(());
    }
    Err(Refusal::NotSuperseded)
}

fn give_up(
    state: Vault,
    numbers: &[u16],
    sets: &[u64],
    version: u16,
    journal: &[u8],
    booked: usize,
    signers: u16,
    job: usize,
    rival: usize,
) -> Decision
    requires { (job < booked) × IndexedEntries version journal.now booked numbers.now sets.now }
    ensures { result ≡ releasing state version journal.now booked signers job rival }
{
    let verdict = supersession(state, numbers, sets, version, journal, booked, job, rival);
    match verdict {
        Ok(()) => Decision {
            outcome: Ok(sets::vaults::size(signers)),
            change: Change::Release(state.release(job)),
        },
        Err(why) => decisions::refuse(why),
    }
}

// The value is the job's recorded signatures, of which none is lost.
pub fn release(
    gate: Verdict,
    state: Vault,
    numbers: &[u16],
    sets: &[u64],
    version: u16,
    journal: &[u8],
    booked: usize,
    signers: u16,
    job: usize,
    rival: usize,
) -> Decision
    requires { Known gate booked job × IndexedEntries version journal.now booked numbers.now sets.now }
    ensures { result ≡ gated gate (releasing state version journal.now booked signers job rival) }
{
    match gate {
        Ok(()) => give_up(
            state, numbers, sets, version, journal, booked, signers, job, rival,
        ),
        Err(why) => decisions::refuse(why),
    }
}
