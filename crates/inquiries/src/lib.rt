// Operations that change nothing: a record shown, kinds 6, 8, 11 and 13. Each takes any arguments and any journal, and promises its whole answer.
#![tactic(auto)]

ghost use Rattle.std.specs.Prelude.{◌≡◌};
ghost use Rattle.ledger.specs.Steps.{dependencies_of, equivocators_of, generations_of, show_of, shown_of};

use gates::Tables;
use ledger::{Ledger, Listing};
use outcome::{Outcome, Verdict};

// The job's record inside the journal, or the empty part where check 1 or 4 fails.
pub fn lookup(ledger: Ledger, journal: &[u8], job: u8) -> &[u8]
    ensures { result.now ≡ shown_of ledger journal.now job }
{
    if books::is_sane(ledger) {
        let settings = ledger.settings;
        return journal::lookup(settings.version, journal, ledger.booked, job as usize);
    }
    &journal[..0]
}

// Kind 6: 2 finished, 1 certified, 0 open. Nothing changes.
pub fn show(ledger: Ledger, journal: &[u8], job: u8) -> Outcome
    ensures { result ≡ show_of ledger journal.now job }
{
    let gate = gates::booked_gate(ledger, journal, job);
    match gate {
        Ok(()) => {
            let j = job as usize;
            let settings = ledger.settings;
            let votes = ledger.votes[j];
            decisions::show(gate, settings, votes).outcome
        }
        Err(why) => Err(why),
    }
}

// Kind 8: how many migrations lie between the job and the accessions that its tapes come from. Nothing changes.
pub fn generations(ledger: Ledger, journal: &[u8], job: u8) -> Outcome
    ensures { result ≡ generations_of ledger journal.now job }
{
    let gate = gates::booked_gate(ledger, journal, job);
    match gate {
        Ok(()) => {
            let settings = ledger.settings;
            let vaults = ledger.vaults;
            let order = ledger.order;
            let j = job as usize;
            let mut tables = Tables::blank();
            tables.enter(settings.version, journal, ledger.booked);
            let mut memo = [0u8; journal::CAPACITY];
            dependencies::generations(
                settings,
                vaults,
                &order,
                ledger.arrivals,
                &tables.numbers,
                &tables.sets,
                journal,
                ledger.booked,
                &mut memo,
                j,
            )
            .outcome
        }
        Err(why) => Err(why),
    }
}

// Kind 11: the jobs, each held by a correct vault, that this vault must hold before it can sign the job; the value is how many. Nothing changes.
pub fn dependencies(ledger: Ledger, journal: &[u8], vault: u8, job: u8) -> Listing
    ensures { result ≡ dependencies_of ledger journal.now vault job }
{
    let gate = gates::vault_gate(ledger, journal, vault, job, false);
    match gate {
        Ok(()) => {
            let v = vault as usize;
            let settings = ledger.settings;
            let vaults = ledger.vaults;
            let state = ledger.vaults[v];
            let j = job as usize;
            let mut tables = Tables::blank();
            tables.enter(settings.version, journal, ledger.booked);
            dependencies::dependencies(
                Ok(()),
                settings,
                vaults,
                state,
                &tables.numbers,
                &tables.sets,
                settings.version,
                journal,
                ledger.booked,
                j,
            )
        }
        Err(why) => decisions::unlist(why),
    }
}

// Kind 13: the vaults that signed for two rivals of which nothing outside the pair excuses either, document 02's two-faced ones. Nothing changes.
pub fn equivocating(ledger: Ledger, journal: &[u8]) -> Listing
    ensures { result ≡ equivocators_of ledger journal.now }
{
    let gate = books::whole_gate(ledger, journal);
    match gate {
        Ok(()) => {
            let settings = ledger.settings;
            let votes = ledger.votes;
            let mut tables = Tables::blank();
            tables.enter(settings.version, journal, ledger.booked);
            let found = equivocation::equivocating(
                settings,
                votes,
                &tables.numbers,
                &tables.sets,
                journal,
                ledger.booked,
            );
            decisions::list(found)
        }
        Err(why) => decisions::unlist(why),
    }
}
