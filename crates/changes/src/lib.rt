// What a step changes, and the one place where a ledger changes.
#![tactic(auto)]

ghost use Rattle.std.specs.Prelude.{◌≡◌};
ghost use Rattle.ledger.specs.Decisions.{is_book, is_nothing};
ghost use Rattle.ledger.specs.Given.{Placed};
ghost use Rattle.ledger.specs.State.{applied};

use ledger::{Change, Ledger};
use vaults::Column;

// Called behind checks 1, 3 and 4: by the operations and by the run.
pub fn apply(mut ledger: Ledger, change: Change, vault: u8, job: u8) -> Ledger
    requires { Placed ledger vault job }
    ensures { result ≡ applied ledger change vault job }
{
    let v = vault as usize;
    let j = job as usize;
    let votes = ledger.votes[j];
    match change {
        Change::Nothing => ledger,
        Change::Book => {
            ledger.booked = ledger.booked + 1;
            ledger
        }
        Change::Sign(state) => {
            ledger.vaults[v] = state;
            ledger.votes[j] = votes.with(Column::Signatures, vault);
            ledger
        }
        Change::Hold(state) => {
            ledger.vaults[v] = state;
            ledger.votes[j] = votes.with(Column::Acknowledgements, vault);
            arrivals::arrive(ledger, job)
        }
        Change::Release(state) => {
            ledger.vaults[v] = state;
            ledger
        }
        Change::Record(column) => {
            ledger.votes[j] = votes.with(column, vault);
            ledger
        }
        Change::See(seen) => {
            let next = snapshot::following(ledger.settings.n, ledger.next);
            ledger.seen = seen;
            ledger.next = next;
            ledger
        }
        Change::Count(history) => {
            let place = quota::place(vault, history.client);
            ledger.histories[place] = history.requests;
            ledger
        }
        Change::Grant(grant) => {
            let state = grant.vault;
            let history = grant.history;
            let at = quota::place(vault, history.client);
            ledger.vaults[v] = state;
            ledger.votes[j] = votes.with(Column::Signatures, vault);
            ledger.histories[at] = history.requests;
            ledger
        }
    }
}

pub fn is_nothing(change: Change) -> bool
    ensures { result ≡ is_nothing change }
{
    matches!(change, Change::Nothing)
}

pub fn is_book(change: Change) -> bool
    ensures { result ≡ is_book change }
{
    matches!(change, Change::Book)
}
