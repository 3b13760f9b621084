// The product's operations: each kind of step on a ledger and a lent journal, and a record shown. Every operation takes any arguments and any journal; its
// promise is one equation with a definition of ledger's specs/Steps.antt, refused steps included. Those that name no vault stand here; the others come
// from the crates below, which a check goes through one by one.
#![tactic(auto)]

ghost use Rattle.std.specs.Prelude.{◌≡◌};
ghost use Rattle.ledger.specs.Steps.{journal_after, propose_of, snapshot_of};

pub use amendments::{client_preflight, release};
use gates::Tables;
pub use inquiries::{dependencies, equivocating, generations, lookup, show};
use ledger::{Ledger, Reply};
use outcome::Refusal;
pub use voting::{commit, faulty_vote, preflight};

// Kind 1. The value is the record's number. A new record is written after the booked ones; else the journal stays as it was.
pub fn propose(ledger: Ledger, journal: &mut [u8], bytes: &[u8]) -> Reply
    ensures value { result ≡ propose_of ledger journal.old bytes.now }
    ensures journal_after { journal.new ≡ journal_after ledger journal.old bytes.now }
{
    if books::is_sane(ledger) {
        let version = ledger.settings.version;
        let booked = ledger.booked;
        let inside = journal::inside(version, &journal[..], booked);
        let mut tables = Tables::blank();
        tables.enter(version, &journal[..], inside);
        let decision = proposals::propose(&tables.records, version, &journal[..], booked, bytes);
        let change = decision.change;
        gates::write(change, version, journal, booked, bytes);
        return gates::carry(ledger, decision, 0, 0);
    }
    gates::turn_back(ledger, Refusal::Settings)
}

// Kind 9: a snapshot's visit to the next vault. The value is the number of jobs seen in this round; it needs no journal.
pub fn snapshot(ledger: Ledger) -> Reply
    ensures { result ≡ snapshot_of ledger }
{
    if books::is_sane(ledger) {
        let settings = ledger.settings;
        let next = ledger.next;
        let v = next as usize;
        let state = ledger.vaults[v];
        let seen = ledger.seen;
        return gates::carry(
            ledger,
            decisions::snapshot(settings, next, seen, state.held),
            0,
            0,
        );
    }
    gates::turn_back(ledger, Refusal::Settings)
}
