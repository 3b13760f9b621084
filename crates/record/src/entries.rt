// The entries of a job. An entry past the eighth is unused and holds nothing.
ghost use Rattle.std.specs.Prelude.{◌≡◌, get_or};
ghost use Rattle.record.specs.Entries.{label_of, frames_of, is_used, no_entry, used_frames};

use crate::{Entry, Job};

#[tactic(auto, unfolding(crate::specs::Entries::is_used))]
pub fn used(job: Job, i: usize) -> bool
    ensures { result ≡ is_used job i }
{
    if i < 4 {
        i < usize::from(job.inputs)
    } else {
        i - 4 < usize::from(job.outputs)
    }
}

fn entry(job: Job, i: usize) -> Entry
    ensures { result ≡ get_or job.entries i no_entry }
{
    if i < 8 {
        job.entries[i]
    } else {
        Entry {
            label: 0,
            frames: 0,
        }
    }
}

#[tactic(auto, unfolding(crate::specs::Entries::label_of))]
pub fn label(job: Job, i: usize) -> u64
    ensures { result ≡ label_of job i }
{
    entry(job, i).label
}

#[tactic(auto, unfolding(crate::specs::Entries::frames_of))]
pub fn frames(job: Job, i: usize) -> u32
    ensures { result ≡ frames_of job i }
{
    entry(job, i).frames
}

#[tactic(auto, unfolding(crate::specs::Entries::used_frames))]
pub fn used_frames(job: Job, i: usize) -> u32
    ensures { result ≡ used_frames job i }
{
    if used(job, i) { frames(job, i) } else { 0 }
}
