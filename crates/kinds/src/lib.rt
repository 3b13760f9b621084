// The kinds of steps that look at one vault, or at one job: each is handed what it looks at. The decisions are the ledger's.
#![tactic(auto)]

mod gates;

ghost use Rattle.std.specs.Prelude.{◌≡◌, ◌+◌, ◌≤◌, get_or};
ghost use Rattle.index.specs.Index.{IndexedEntries};
ghost use Rattle.runfile.specs.Run.{longest};
ghost use Rattle.runfile.specs.Steps.{word_at};
ghost use Rattle.kinds.specs.Decided.{client_preflight_by, commit_by, draw_by, preflight_by, release_by, show_by, vote_by};

use federation::Settings;
pub use gates::gate;
use job_sets::JobSet;
use ledger::{Change, Decision};
use reading::Step;
use vaults::{Column, Vault, Votes};

// What a step looks at that looks at one vault: its state, the votes on the job that the step names, and the history at the place that it names; of the
// snapshot the number of the vault that is next, the jobs seen in this round, and that vault.
#[derive(Clone, Copy)]
pub struct View {
    pub settings: Settings,
    pub booked: usize,
    pub state: Vault,
    pub votes: Votes,
    pub history: u16,
    pub next: u8,
    pub seen: JobSet,
    pub turn: Vault,
}

// Kind 2.
pub fn preflight(step: Step, view: View, numbers: &[u16], sets: &[u64], journal: &[u8]) -> Decision
    requires { IndexedEntries view.settings.version journal.now view.booked numbers.now sets.now }
    ensures { result ≡ preflight_by view journal.now step.vault step.job }
{
    let settings = view.settings;
    let job = step.job as usize;
    preflights::preflight(
        gates::gate(settings, view.booked, journal, step.vault, false, job),
        view.state,
        numbers,
        sets,
        settings.version,
        journal,
        view.booked,
        view.votes.signatures,
        step.vault,
        job,
    )
}

// Kind 12.
pub fn client_preflight(
    step: Step,
    view: View,
    numbers: &[u16],
    sets: &[u64],
    journal: &[u8],
    input: &[u8],
) -> Decision
    requires { IndexedEntries view.settings.version journal.now view.booked numbers.now sets.now × (step.at ≤ longest) }
    ensures { result ≡ client_preflight_by view journal.now step.vault step.job (get_or input.now (step.at + 2) 0) }
{
    let settings = view.settings;
    let job = step.job as usize;
    preflights::client_preflight(
        gates::gate(settings, view.booked, journal, step.vault, false, job),
        view.state,
        numbers,
        sets,
        settings.version,
        journal,
        view.booked,
        fields::byte_at(input, step.at + 2),
        view.history,
        view.votes.signatures,
        step.vault,
        job,
    )
}

// Kind 10.
pub fn release(
    step: Step,
    view: View,
    numbers: &[u16],
    sets: &[u64],
    journal: &[u8],
    input: &[u8],
) -> Decision
    requires { IndexedEntries view.settings.version journal.now view.booked numbers.now sets.now × (step.at ≤ longest) }
    ensures { result ≡ release_by view journal.now step.vault step.job (get_or input.now (step.at + 2) 0) }
{
    let settings = view.settings;
    let job = step.job as usize;
    supersession::release(
        gates::gate(settings, view.booked, journal, step.vault, false, job),
        view.state,
        numbers,
        sets,
        settings.version,
        journal,
        view.booked,
        view.votes.signatures,
        job,
        fields::byte_at(input, step.at + 2) as usize,
    )
}

// Kind 3.
pub fn commit(step: Step, view: View, journal: &[u8], input: &[u8]) -> Decision
    requires { step.at ≤ longest }
    ensures { result ≡ commit_by view journal.now step.vault step.job (word_at input.now (step.at + 2)) }
{
    let settings = view.settings;
    let votes = view.votes;
    let job = step.job as usize;
    commits::commit(
        gates::gate(settings, view.booked, journal, step.vault, false, job),
        settings,
        view.state,
        votes,
        step.vault,
        job,
        fields::word_at(input, step.at + 2),
    )
}

// Kinds 4 and 5.
pub fn vote(step: Step, view: View, journal: &[u8], column: Column) -> Decision
    ensures { result ≡ vote_by view journal.now column step.vault step.job }
{
    let settings = view.settings;
    let votes = view.votes;
    let job = step.job as usize;
    decisions::cast(
        gates::gate(settings, view.booked, journal, step.vault, true, job),
        votes,
        column,
        step.vault,
    )
}

// Kind 6.
pub fn show(step: Step, view: View, journal: &[u8]) -> Decision
    ensures { result ≡ show_by view journal.now step.job }
{
    let settings = view.settings;
    let votes = view.votes;
    let job = step.job as usize;
    decisions::show(
        gates::booked_or(settings.version, view.booked, journal, job),
        settings,
        votes,
    )
}

// Kind 7.
pub fn draw(settings: Settings, u: u8) -> Decision
    ensures { result ≡ draw_by settings u }
{
    Decision {
        outcome: draw::draw(settings, u),
        change: Change::Nothing,
    }
}
