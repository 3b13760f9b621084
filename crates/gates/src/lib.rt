// What the operations share: the checks before a step, the index of a lent journal, and the two ways of a step, carried out or turned back. Parts of the
// operations, which ask nothing.
#![tactic(auto)]

mod tables;

ghost use Rattle.std.specs.Prelude.{◌≡◌};
ghost use Rattle.ledger.specs.Given.{Placed, Writable};
ghost use Rattle.ledger.specs.Steps.{booked_gate, carried, journal_with, turned, vault_gate};

use ledger::{Change, Decision, Ledger, Reply};
use outcome::{Outcome, Refusal, Verdict};
pub use tables::Tables;

// Checks 1 and 4.
pub fn booked_gate(ledger: Ledger, journal: &[u8], job: u8) -> Verdict
    ensures { result ≡ booked_gate ledger journal.now job }
{
    if books::is_sane(ledger) {
        let settings = ledger.settings;
        if journal::is_booked(settings.version, journal, ledger.booked, job as usize) {
            return Ok(());
        }
        return Err(Refusal::NotBooked);
    }
    Err(Refusal::Settings)
}

// Checks 1, 3, 5 and 4, of a step that is for faulty vaults or for correct ones.
pub fn vault_gate(ledger: Ledger, journal: &[u8], vault: u8, job: u8, faulty: bool) -> Verdict
    ensures { result ≡ vault_gate ledger journal.now vault job faulty }
{
    if books::is_sane(ledger) {
        let settings = ledger.settings;
        let booked = journal::is_booked(settings.version, journal, ledger.booked, job as usize);
        return decisions::gate(settings, vault, faulty, booked);
    }
    Err(Refusal::Settings)
}

pub fn carry(ledger: Ledger, decision: Decision, vault: u8, job: u8) -> Reply
    requires { Placed ledger vault job }
    ensures { result ≡ carried ledger decision vault job }
{
    let outcome = decision.outcome;
    let change = decision.change;
    Reply {
        outcome,
        ledger: changes::apply(ledger, change, vault, job),
    }
}

pub fn turn_back(ledger: Ledger, why: Refusal) -> Reply
    ensures { result ≡ turned ledger why }
{
    Reply {
        outcome: Err(why),
        ledger,
    }
}

// A new record's bytes are put after the booked ones; no other change touches the journal.
pub fn write(change: Change, version: u16, journal: &mut [u8], booked: usize, bytes: &[u8])
    requires { Writable change booked version journal.old bytes.now }
    ensures { journal.new ≡ journal_with change booked version journal.old bytes.now }
{
    if changes::is_book(change) {
        journal::put_at(version, journal, booked, bytes);
        return;
    }
}
