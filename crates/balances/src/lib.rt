// Check 9: whether a migration's frames balance.
#![tactic(auto)]

ghost use Rattle.std.specs.Prelude.{◌≡◌, ◌≤◌, ◌<◌, ◌^◌};
ghost use Rattle.base.specs.Search.{sum_from};
ghost use Rattle.record.specs.Entries.{used_frames};
ghost use Rattle.checks.specs.Checks.{balanced};

use record::{Job, entries};

// The frames of a half's used entries, exactly: four numbers of 32 bits fit 64.
fn total(job: Job, half: usize) -> u64
    requires { half ≤ 4 }
    ensures { (result ≡ sum_from (used_frames job) half 4) × (result < 2 ^ 34) }
{
    let mut sum: u64 = 0;
    for i in 0..4 {
        sum += u64::from(entries::used_frames(job, half + i));
    }
    sum
}

// Check 9. Five numbers of 32 bits fit 64.
#[tactic(auto, unfolding(checks::specs::Checks::balanced))]
pub fn is_balanced(job: Job) -> bool
    ensures { result ≡ balanced job }
{
    job.kind != 1 || total(job, 0) == total(job, 4) + u64::from(job.trimmed)
}
