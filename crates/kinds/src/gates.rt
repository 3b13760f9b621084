// The gates that steps stand behind, for those who have the booked records at hand.
ghost use Rattle.std.specs.Prelude.{◌≡◌};
ghost use Rattle.journal.specs.Journal.{is_booked};
ghost use Rattle.kinds.specs.Decided.{booked_or, gate_by};

use federation::Settings;
use outcome::{Refusal, Verdict};

// Check 4.
pub(crate) fn booked_or(version: u16, booked: usize, journal: &[u8], job: usize) -> Verdict
    ensures { result ≡ booked_or (is_booked version journal.now booked job) }
{
    if journal::is_booked(version, journal, booked, job) {
        return Ok(());
    }
    Err(Refusal::NotBooked)
}

// Checks 3, 5 and 4, of a step that is for faulty vaults or for correct ones.
pub fn gate(
    settings: Settings,
    booked: usize,
    journal: &[u8],
    vault: u8,
    faulty: bool,
    job: usize,
) -> Verdict
    ensures { result ≡ gate_by settings booked journal.now vault faulty job }
{
    let known = journal::is_booked(settings.version, journal, booked, job);
    decisions::gate(settings, vault, faulty, known)
}
