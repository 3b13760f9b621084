// Kind 3: a vault commits to a job that a certificate vouches for.
#![tactic(auto)]

ghost use Rattle.std.specs.Prelude.{◌≡◌};
ghost use Rattle.ledger.specs.Decisions.{certificate, committing, gated, receiving};

use federation::Settings;
use ledger::{Change, Decision};
use outcome::{Refusal, Verdict};
use vaults::{Vault, Votes};

// A job with a valid certificate.
fn receive(state: Vault, acknowledgers: u16, vault: u8, job: usize) -> Decision
    ensures { result ≡ receiving state acknowledgers vault job }
{
    if state.held.has(job) {
        return decisions::answer(sets::vaults::size(acknowledgers));
    }
    decisions::vote(acknowledgers, vault, Change::Hold(state.commit(job)))
}

// Checks 15 and 16.
fn certificate(settings: Settings, recorded: u16, signers: u16) -> Verdict
    ensures { result ≡ certificate settings recorded signers }
{
    if !sets::vaults::subset(signers, recorded) {
        return Err(Refusal::NotSigned);
    }
    if sets::vaults::size(signers) < settings.threshold() {
        return Err(Refusal::TooFewSigners);
    }
    Ok(())
}

fn certify(
    settings: Settings,
    state: Vault,
    votes: Votes,
    vault: u8,
    job: usize,
    signers: u16,
) -> Decision
    ensures { result ≡ committing settings state votes vault job signers }
{
    let verdict = certificate(settings, votes.signatures, signers);
    match verdict {
        Ok(()) => receive(state, votes.acknowledgements, vault, job),
        Err(why) => decisions::refuse(why),
    }
}

pub fn commit(
    gate: Verdict,
    settings: Settings,
    state: Vault,
    votes: Votes,
    vault: u8,
    job: usize,
    signers: u16,
) -> Decision
    ensures { result ≡ gated gate (committing settings state votes vault job signers) }
{
    match gate {
        Ok(()) => certify(settings, state, votes, vault, job, signers),
        Err(why) => decisions::refuse(why),
    }
}
