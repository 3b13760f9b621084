// A ledger is opened here; whether a run can have led to one, and whether the journal holds its records.
#![tactic(auto)]

ghost use Rattle.std.specs.Prelude.{◌≡◌};
ghost use Rattle.ledger.specs.State.{is_sane, new_ledger};
ghost use Rattle.ledger.specs.Steps.{new_of, whole_gate};

use federation::Settings;
use job_sets::JobSet;
use journal::CAPACITY;
use ledger::{Ledger, Reply};
use outcome::{Outcome, Refusal, Verdict};
use vaults::{Vault, Votes};

fn empty(n: u8, b: u8, faulty: u16, version: u16) -> Ledger
    ensures { result ≡ new_ledger n b faulty version }
{
    let settings = Settings {
        n,
        b,
        faulty,
        version,
    };
    let none = Votes {
        signatures: 0,
        acknowledgements: 0,
    };
    let votes = [none; 128];
    let order = [0u8; 128];
    let seen = JobSet::empty();
    let vaults = [Vault::new(); 16];
    let histories = [0u16; 128];
    Ledger {
        settings,
        booked: 0,
        arrivals: 0,
        next: 0,
        seen,
        votes,
        order,
        vaults,
        histories,
    }
}

// A ledger with nothing in it. Where the settings are lawful the value is the threshold; else the answer is refusal 1,
// and every step on this ledger is answered so too.
pub fn new(n: u8, b: u8, faulty: u16, version: u16) -> Reply
    ensures { result ≡ new_of n b faulty version }
{
    let ledger = empty(n, b, faulty, version);
    let settings = ledger.settings;
    if settings.is_lawful() {
        return Reply {
            outcome: Ok(settings.threshold()),
            ledger,
        };
    }
    Reply {
        outcome: Err(Refusal::Settings),
        ledger,
    }
}

// Whether a run can have led here, as far as the settings and the counts tell.
#[tactic(auto, unfolding(ledger::specs::State::is_sane))]
pub fn is_sane(ledger: Ledger) -> bool
    ensures { result ≡ is_sane ledger }
{
    let settings = ledger.settings;
    settings.is_lawful()
        && ledger.booked <= CAPACITY
        && ledger.arrivals <= CAPACITY
        && ledger.next < settings.n
}

// Checks 1 and 4 of what names no job.
pub fn whole_gate(ledger: Ledger, journal: &[u8]) -> Verdict
    ensures { result ≡ whole_gate ledger journal.now }
{
    if is_sane(ledger) {
        let settings = ledger.settings;
        if journal::is_whole(settings.version, journal, ledger.booked) {
            return Ok(());
        }
        return Err(Refusal::NotBooked);
    }
    Err(Refusal::Settings)
}
