// Operations: document 02's steps at a vault, kinds 10 and 12. Each takes any arguments and any journal, as those of `voting` do, and promises the same.
#![tactic(auto)]

ghost use Rattle.std.specs.Prelude.{◌≡◌};
ghost use Rattle.ledger.specs.Steps.{client_preflight_of, release_of};

use gates::Tables;
use ledger::{Ledger, Reply};
use outcome::Verdict;

// Kind 10: a correct vault releases a signature of a job that lost to a rival, which the vault holds. The value is the job's signatures, and none is lost.
pub fn release(ledger: Ledger, journal: &[u8], vault: u8, job: u8, rival: u8) -> Reply
    ensures { result ≡ release_of ledger journal.now vault job rival }
{
    let gate = gates::vault_gate(ledger, journal, vault, job, false);
    match gate {
        Ok(()) => {
            let v = vault as usize;
            let j = job as usize;
            let state = ledger.vaults[v];
            let votes = ledger.votes[j];
            let settings = ledger.settings;
            let mut tables = Tables::blank();
            tables.enter(settings.version, journal, ledger.booked);
            let decision = supersession::release(
                gate,
                state,
                &tables.numbers,
                &tables.sets,
                settings.version,
                journal,
                ledger.booked,
                votes.signatures,
                j,
                rival as usize,
            );
            gates::carry(ledger, decision, vault, job)
        }
        Err(why) => gates::turn_back(ledger, why),
    }
}

// Kind 12: a correct vault is asked by a client to sign a job, within the client's quota there. The value is the job's signatures afterwards. A request that
// counts enters the client's history, refused or not.
pub fn client_preflight(ledger: Ledger, journal: &[u8], vault: u8, job: u8, client: u8) -> Reply
    ensures { result ≡ client_preflight_of ledger journal.now vault job client }
{
    let gate = gates::vault_gate(ledger, journal, vault, job, false);
    match gate {
        Ok(()) => {
            let v = vault as usize;
            let j = job as usize;
            let state = ledger.vaults[v];
            let votes = ledger.votes[j];
            let place = quota::place(vault, client);
            let history = ledger.histories[place];
            let settings = ledger.settings;
            let mut tables = Tables::blank();
            tables.enter(settings.version, journal, ledger.booked);
            let decision = preflights::client_preflight(
                gate,
                state,
                &tables.numbers,
                &tables.sets,
                settings.version,
                journal,
                ledger.booked,
                client,
                history,
                votes.signatures,
                vault,
                j,
            );
            gates::carry(ledger, decision, vault, job)
        }
        Err(why) => gates::turn_back(ledger, why),
    }
}
