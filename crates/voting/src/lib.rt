// Operations: kinds 2 to 5, votes of a vault on a job. Each takes any arguments and any journal; its promise is one equation with a definition of ledger's
// specs/Steps.antt, refused steps included. It is the row of checks, the decision that the run makes too, and what that changes applied.
#![tactic(auto)]

ghost use Rattle.std.specs.Prelude.{◌≡◌};
ghost use Rattle.ledger.specs.Steps.{commit_of, faulty_vote_of, preflight_of};

use gates::Tables;
use ledger::{Ledger, Reply};
use outcome::Verdict;
use vaults::Column;

// Kind 2: a correct vault is asked to sign a job. The value is the job's signatures afterwards.
pub fn preflight(ledger: Ledger, journal: &[u8], vault: u8, job: u8) -> Reply
    ensures { result ≡ preflight_of ledger journal.now vault job }
{
    let gate = gates::vault_gate(ledger, journal, vault, job, false);
    match gate {
        Ok(()) => {
            let v = vault as usize;
            let j = job as usize;
            let state = ledger.vaults[v];
            let votes = ledger.votes[j];
            let settings = ledger.settings;
            let mut tables = Tables::blank();
            tables.enter(settings.version, journal, ledger.booked);
            let decision = preflights::preflight(
                gate,
                state,
                &tables.numbers,
                &tables.sets,
                settings.version,
                journal,
                ledger.booked,
                votes.signatures,
                vault,
                j,
            );
            gates::carry(ledger, decision, vault, job)
        }
        Err(why) => gates::turn_back(ledger, why),
    }
}

// Kind 3: a correct vault is handed a job with the set of its signers. The value is the job's acknowledgements afterwards.
pub fn commit(ledger: Ledger, journal: &[u8], vault: u8, job: u8, signers: u16) -> Reply
    ensures { result ≡ commit_of ledger journal.now vault job signers }
{
    let gate = gates::vault_gate(ledger, journal, vault, job, false);
    match gate {
        Ok(()) => {
            let v = vault as usize;
            let j = job as usize;
            let settings = ledger.settings;
            let state = ledger.vaults[v];
            let votes = ledger.votes[j];
            let decision = commits::commit(gate, settings, state, votes, vault, j, signers);
            gates::carry(ledger, decision, vault, job)
        }
        Err(why) => gates::turn_back(ledger, why),
    }
}

// Kinds 4 and 5: a faulty vault signs, or acknowledges. The value is the job's votes in that column afterwards.
pub fn faulty_vote(ledger: Ledger, journal: &[u8], column: Column, vault: u8, job: u8) -> Reply
    ensures { result ≡ faulty_vote_of ledger journal.now column vault job }
{
    let gate = gates::vault_gate(ledger, journal, vault, job, true);
    match gate {
        Ok(()) => {
            let j = job as usize;
            let votes = ledger.votes[j];
            let decision = decisions::cast(gate, votes, column, vault);
            gates::carry(ledger, decision, vault, job)
        }
        Err(why) => gates::turn_back(ledger, why),
    }
}
