// How far a run has come: what its steps answer, what it hands back, and how it goes on beside its ledger.
#![tactic(auto)]

ghost use Rattle.std.specs.Prelude.{◌≡◌};
ghost use Rattle.job_sets.specs.Jobs.{no_jobs};
ghost use Rattle.progress.specs.Coming.{Goes, cursor_at, moved_to, turned_at};

use job_sets::JobSet;
use ledger::{Change, Ledger};
use outcome::Outcome;
use reading::Step;

// What a step answers that looks at one vault: what it changes in the ledger, and where its text ends.
#[derive(Clone, Copy)]
pub struct Told {
    pub change: Change,
    pub outcome: Outcome,
    pub at: usize,
}

// What a step answers and lists that looks at all vaults, the vaults that equivocate, where they are known then, and where its text ends.
#[derive(Clone, Copy)]
pub struct Looked {
    pub outcome: Outcome,
    pub members: JobSet,
    pub named: Option<JobSet>,
    pub at: usize,
}

// How far a run has come: its ledger, where it reads, how many steps it has carried out, and how much of the buffer it wrote last.
#[derive(Clone, Copy)]
pub struct Progress {
    pub ledger: Ledger,
    pub pos: usize,
    pub count: u32,
    pub written: usize,
}

// A run after one step, what that answered and listed, and what is kept of kind 13.
#[derive(Clone, Copy)]
pub struct Turned {
    pub progress: Progress,
    pub outcome: Outcome,
    pub members: JobSet,
    pub named: Option<JobSet>,
}

// How far it has come, beside its ledger: where it reads, how many steps it has carried out and where its text ends; what the last step answered and
// listed.
#[derive(Clone, Copy)]
pub struct Cursor {
    pub pos: usize,
    pub count: u32,
    pub at: usize,
    pub outcome: Outcome,
    pub members: JobSet,
}

// Nothing is answered yet.
pub fn cursor_at(pos: usize, count: u32, at: usize) -> Cursor
    ensures { result ≡ cursor_at pos count at }
{
    Cursor {
        pos,
        count,
        at,
        outcome: Ok(0),
        members: JobSet::empty(),
    }
}

// After a step that looks at all vaults.
pub fn surveyed(step: Step, r: Looked) -> Cursor
    ensures { result ≡ moved_to step r.at r.outcome r.members }
{
    let outcome = r.outcome;
    let members = r.members;
    Cursor {
        pos: step.end,
        count: step.number,
        at: r.at,
        outcome,
        members,
    }
}

// After one that looks at one vault, and lists nothing.
pub fn carried_out(step: Step, r: Told) -> Cursor
    ensures { result ≡ moved_to step r.at r.outcome no_jobs }
{
    let outcome = r.outcome;
    Cursor {
        pos: step.end,
        count: step.number,
        at: r.at,
        outcome,
        members: JobSet::empty(),
    }
}

pub fn handed(ledger: Ledger, c: Cursor, named: Option<JobSet>) -> Turned
    ensures { result ≡ turned_at ledger c named }
{
    let outcome = c.outcome;
    let members = c.members;
    let progress = Progress {
        ledger,
        pos: c.pos,
        count: c.count,
        written: c.at,
    };
    Turned {
        progress,
        outcome,
        members,
        named,
    }
}

// Whether there is a step to carry out, with a number up to `last`, and room for the longest text of one.
pub fn goes_on(c: Cursor, last: u32, size: usize, room: usize) -> bool
    ensures { Goes c last size room result }
{
    if c.pos >= size {
        return false;
    }
    if room < text::LONGEST {
        return false;
    }
    if room - text::LONGEST < c.at {
        return false;
    }
    c.count < last
}
