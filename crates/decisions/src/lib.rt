// What a step decides, from the pieces that it names: the verdict of the checks before, a vault, the votes on a job. The ledger's
// operations and the run share these functions, and those of the crates above for the kinds that need more.
#![tactic(auto)]

mod listings;

ghost use Rattle.std.specs.Prelude.{◌≡◌};
ghost use Rattle.ledger.specs.Decisions.{
  refusing,
  answering,
  voting,
  gated,
  snapshotting,
  status_of,
};
ghost use Rattle.ledger.specs.Steps.{gate_of};
ghost use Rattle.vaults.specs.Votes.{column_of};
ghost use Rattle.ledger.specs.declared.Change.TheVariants.{Record};

use federation::Settings;
use job_sets::JobSet;
use ledger::{Change, Decision};
pub use listings::{list, unlist};
use outcome::{Outcome, Refusal, Verdict};
use vaults::{Column, Votes};

pub fn refuse(why: Refusal) -> Decision
    ensures { result ≡ refusing why }
{
    Decision {
        outcome: Err(why),
        change: Change::Nothing,
    }
}

pub fn answer(value: u32) -> Decision
    ensures { result ≡ answering value }
{
    Decision {
        outcome: Ok(value),
        change: Change::Nothing,
    }
}

// The value is how many have voted once the vault has.
pub fn vote(votes: u16, vault: u8, change: Change) -> Decision
    ensures { result ≡ voting votes vault change }
{
    Decision {
        outcome: Ok(sets::vaults::size(sets::vaults::with(votes, vault))),
        change,
    }
}

// Checks 3, 5 and 4, of a step that is for faulty vaults or for correct ones.
pub fn gate(settings: Settings, vault: u8, faulty: bool, booked: bool) -> Verdict
    ensures { result ≡ gate_of settings vault faulty booked }
{
    if vault >= settings.n {
        return Err(Refusal::NoVault);
    }
    if sets::vaults::has(settings.faulty, vault) != faulty {
        return Err(Refusal::WrongVault);
    }
    if booked {
        return Ok(());
    }
    Err(Refusal::NotBooked)
}

// A faulty vault's vote.
pub fn cast(gate: Verdict, votes: Votes, column: Column, vault: u8) -> Decision
    ensures { result ≡ gated gate (voting (column_of column votes) vault (Record column)) }
{
    match gate {
        Ok(()) => vote(votes.of(column), vault, Change::Record(column)),
        Err(why) => refuse(why),
    }
}

// 2 finished, 1 certified, 0 open.
fn status(settings: Settings, votes: Votes) -> u32
    ensures { result ≡ status_of settings votes }
{
    let threshold = settings.threshold();
    if threshold <= sets::vaults::size(votes.acknowledgements) {
        return 2;
    }
    if threshold <= sets::vaults::size(votes.signatures) {
        return 1;
    }
    0
}

pub fn show(gate: Verdict, settings: Settings, votes: Votes) -> Decision
    ensures { result ≡ gated gate (answering (status_of settings votes)) }
{
    match gate {
        Ok(()) => answer(status(settings, votes)),
        Err(why) => refuse(why),
    }
}

// Kind 9: the snapshot's visit to the next vault, which holds `held`. The value is the number of jobs seen in this round.
pub fn snapshot(settings: Settings, next: u8, seen: JobSet, held: JobSet) -> Decision
    ensures { result ≡ snapshotting settings next seen held }
{
    let all = snapshot::seen_after(settings, next, seen, held);
    Decision {
        outcome: Ok(all.count()),
        change: Change::See(all),
    }
}
