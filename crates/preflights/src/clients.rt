// Kind 12: a preflight from a client, within its quota at the vault. The index is the journal's, as for a preflight.
ghost use Rattle.std.specs.Prelude.{false, ◌≡◌, ◌<◌};
ghost use Rattle.index.specs.Index.{IndexedEntries};
ghost use Rattle.ledger.specs.Decisions.{
  admission_at,
  client_preflighting,
  counted_consent,
  counting,
  gated,
  history_with,
  within_quota,
};
ghost use Rattle.ledger.specs.Given.{Known};
ghost use Rattle.ledger.specs.declared.Change.TheVariants.{Count};

use ledger::{Change, Decision, Grant, History};
use outcome::{Outcome, Refusal, Verdict};
use vaults::{Consent, Signing, Vault};

// The client's history with this request in it.
fn enter(client: u8, history: u16, fresh: bool) -> History
    ensures { result ≡ history_with client history fresh }
{
    History {
        client,
        requests: quota::remember(history, fresh),
    }
}

// A request that counts and brings no new signature.
fn note(outcome: Outcome, client: u8, history: u16) -> Decision
    ensures { result ≡ record { outcome = outcome; change = Count (history_with client history false) } }
{
    Decision {
        outcome,
        change: Change::Count(enter(client, history, false)),
    }
}

// The vault's answer, and the request in the client's history.
fn count(given: Signing, client: u8, history: u16, signers: u16, vault: u8) -> Decision
    ensures { result ≡ counting given.consent given.vault client history signers vault }
{
    let consent = given.consent;
    match consent {
        Consent::Already => note(Ok(sets::vaults::size(signers)), client, history),
        Consent::Fresh => {
            let state = given.vault;
            let entered = enter(client, history, true);
            let grant = Grant {
                vault: state,
                history: entered,
            };
            decisions::vote(signers, vault, Change::Grant(grant))
        }
        Consent::Denied(why) => note(Err(why), client, history),
    }
}

// Check 23, then 11 to 14.
fn within_quota(
    state: Vault,
    numbers: &[u16],
    sets: &[u64],
    version: u16,
    journal: &[u8],
    booked: usize,
    history: u16,
    job: usize,
) -> Verdict
    requires { (job < booked) × IndexedEntries version journal.now booked numbers.now sets.now }
    ensures { result ≡ within_quota history (admission_at state version journal.now booked job) }
{
    if quota::is_spent(history) {
        return Err(Refusal::OverQuota);
    }
    crate::admission_at(state, numbers, sets, version, journal, booked, job)
}

// A job that the vault has signed is accepted before any other check is made.
fn ask(
    state: Vault,
    numbers: &[u16],
    sets: &[u64],
    version: u16,
    journal: &[u8],
    booked: usize,
    client: u8,
    history: u16,
    signers: u16,
    vault: u8,
    job: usize,
) -> Decision
    requires { (job < booked) × IndexedEntries version journal.now booked numbers.now sets.now }
    ensures { result ≡ counted_consent state (admission_at state version journal.now booked job) client history signers vault job }
{
    if state.signed.has(job) {
        return note(Ok(sets::vaults::size(signers)), client, history);
    }
    let verdict = within_quota(state, numbers, sets, version, journal, booked, history, job);
    count(
        state.preflight(verdict, job),
        client,
        history,
        signers,
        vault,
    )
}

// Check 22 first: a request of no client counts for none.
fn consult_for(
    state: Vault,
    numbers: &[u16],
    sets: &[u64],
    version: u16,
    journal: &[u8],
    booked: usize,
    client: u8,
    history: u16,
    signers: u16,
    vault: u8,
    job: usize,
) -> Decision
    requires { (job < booked) × IndexedEntries version journal.now booked numbers.now sets.now }
    ensures { result ≡ client_preflighting state version journal.now booked client history signers vault job }
{
    if quota::is_client(client) {
        return ask(
            state, numbers, sets, version, journal, booked, client, history, signers, vault, job,
        );
    }
    decisions::refuse(Refusal::NoClient)
}

// The history is the client's at the vault. The value is the job's signatures afterwards.
pub fn client_preflight(
    gate: Verdict,
    state: Vault,
    numbers: &[u16],
    sets: &[u64],
    version: u16,
    journal: &[u8],
    booked: usize,
    client: u8,
    history: u16,
    signers: u16,
    vault: u8,
    job: usize,
) -> Decision
    requires { Known gate booked job × IndexedEntries version journal.now booked numbers.now sets.now }
    ensures { result ≡ gated gate (client_preflighting state version journal.now booked client history signers vault job) }
{
    match gate {
        Ok(()) => consult_for(
            state, numbers, sets, version, journal, booked, client, history, signers, vault, job,
        ),
        Err(why) => decisions::refuse(why),
    }
}
