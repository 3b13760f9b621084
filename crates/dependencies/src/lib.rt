// Kinds 8 and 11, which ask what correct vaults hold: the generations of a job that one holds, and the jobs that a vault must hold before it can
// sign. The index is the journal's, as for a preflight.
#![tactic(auto)]

mod missing;

ghost use Rattle.std.specs.Prelude.{◌&&◌, not, ◌≡◌, ◌≤◌};
ghost use Rattle.sets.specs.Bits.{has_bit};
ghost use Rattle.job_sets.specs.Jobs.{job_has};
ghost use Rattle.generations.specs.Memo.{Ready};
ghost use Rattle.ledger.specs.Given.{Aged};
ghost use Rattle.ledger.specs.Holders.{is_held};

use federation::Settings;
use job_sets::JobSet;
use ledger::Decision;
pub use missing::dependencies;
use outcome::Refusal;
use vaults::Vault;

fn holds(faulty: u16, held: JobSet, vault: u8, job: usize) -> bool
    ensures { result ≡ (not (has_bit faulty vault) && job_has held job) }
{
    !sets::vaults::has(faulty, vault) && held.has(job)
}

// Check 18: some correct vault holds the job.
fn is_held(settings: Settings, vaults: [Vault; 16], job: usize) -> bool
    requires { settings.n ≤ 16 }
    ensures { result ≡ is_held settings vaults job }
{
    (0..settings.n as usize).any(|v| holds(settings.faulty, vaults[v].held, v as u8, job))
}

// Kind 8, where the job is booked. The memo has the generations that were found before.
pub fn generations(
    settings: Settings,
    vaults: [Vault; 16],
    order: &[u8],
    arrivals: usize,
    numbers: &[u16],
    sets: &[u64],
    journal: &[u8],
    booked: usize,
    memo: &mut [u8],
    job: usize,
) -> Decision
    requires { (settings.n ≤ 16) × Ready settings.version journal.now booked numbers.now sets.now order.now arrivals memo.old }
    ensures { Aged settings vaults order.now arrivals journal.now booked memo.new job result }
{
    if is_held(settings, vaults, job) {
        return decisions::answer(generations::age(
            settings.version,
            journal,
            booked,
            numbers,
            sets,
            order,
            arrivals,
            memo,
            job,
        ));
    }
    decisions::refuse(Refusal::NotHeld)
}
