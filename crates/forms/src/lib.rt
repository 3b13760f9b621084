// Check 6: whether a record is well formed.
#![tactic(auto)]

ghost use Rattle.std.specs.Prelude.{◌≡◌};
ghost use Rattle.base.specs.Search.{all_below};
ghost use Rattle.checks.specs.Checks.{inputs_formed, counts_formed, is_filled, is_blank, entry_formed, trimmed_formed, well_formed};

use record::{Job, entries, labels};

#[tactic(auto, unfolding(checks::specs::Checks::inputs_formed))]
fn inputs_formed(job: Job) -> bool
    ensures { result ≡ inputs_formed job }
{
    match job.kind {
        0 => job.inputs == 0,
        1 => labels::between(1, 4, job.inputs),
        _ => false,
    }
}

#[tactic(auto, unfolding(checks::specs::Checks::counts_formed))]
fn counts_formed(job: Job) -> bool
    ensures { result ≡ counts_formed job }
{
    inputs_formed(job) && labels::between(1, 4, job.outputs)
}

// A used entry has a label and at least one frame.
#[tactic(auto, unfolding(checks::specs::Checks::is_filled))]
fn is_filled(job: Job, i: usize) -> bool
    ensures { result ≡ is_filled job i }
{
    labels::is_label(entries::label(job, i)) && 1 <= entries::frames(job, i)
}

// An unused entry is all zero.
#[tactic(auto, unfolding(checks::specs::Checks::is_blank))]
fn is_blank(job: Job, i: usize) -> bool
    ensures { result ≡ is_blank job i }
{
    entries::label(job, i) == 0 && entries::frames(job, i) == 0
}

#[tactic(auto, unfolding(checks::specs::Checks::entry_formed))]
fn entry_formed(job: Job, i: usize) -> bool
    ensures { result ≡ entry_formed job i }
{
    if entries::used(job, i) {
        is_filled(job, i)
    } else {
        is_blank(job, i)
    }
}

fn entries_formed(job: Job) -> bool
    ensures { result ≡ all_below 8 (entry_formed job) }
{
    (0..8).all(|i| entry_formed(job, i))
}

// An accession trims nothing.
#[tactic(auto, unfolding(checks::specs::Checks::trimmed_formed))]
fn trimmed_formed(job: Job) -> bool
    ensures { result ≡ trimmed_formed job }
{
    job.kind != 0 || job.trimmed == 0
}

#[tactic(auto, unfolding(checks::specs::Checks::well_formed))]
pub fn well_formed(job: Job) -> bool
    ensures { result ≡ well_formed job }
{
    drives::is_drive(job.drive) && counts_formed(job) && trimmed_formed(job) && entries_formed(job)
}
