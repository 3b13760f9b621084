// When two jobs conflict.
#![tactic(auto)]

ghost use Rattle.std.specs.Prelude.{◌≡◌};
ghost use Rattle.conflicts.specs.Conflicts.{is_label_at, label_in, shares_at, shares_in, conflicting};

use record::{Job, entries};

// Inputs are the half from entry 0 on and outputs that from entry 4 on.
const INPUTS: u8 = 0;

const OUTPUTS: u8 = 4;

// Entry half + i is used and has the label.
#[tactic(auto, unfolding(crate::specs::Conflicts::is_label_at))]
fn is_label_at(half: u8, job: Job, label: u64, i: u8) -> bool
    ensures { result ≡ is_label_at half job label i }
{
    let entry = usize::from(half) + usize::from(i);
    entries::used(job, entry) && entries::label(job, entry) == label
}

fn label_in(half: u8, job: Job, label: u64) -> bool
    ensures { result ≡ label_in half job label }
{
    (0..4).any(|i| is_label_at(half, job, label, i))
}

#[tactic(auto, unfolding(crate::specs::Conflicts::shares_at))]
fn shares_at(half: u8, a: Job, b: Job, i: u8) -> bool
    ensures { result ≡ shares_at half a b i }
{
    let entry = usize::from(half) + usize::from(i);
    entries::used(a, entry) && label_in(half, b, entries::label(a, entry))
}

fn shares_in(half: u8, a: Job, b: Job) -> bool
    ensures { result ≡ shares_in half a b }
{
    (0..4).any(|i| shares_at(half, a, b, i))
}

// Whether the jobs share an input label or an output label.
#[tactic(auto, unfolding(crate::specs::Conflicts::conflicting))]
pub fn conflict(a: Job, b: Job) -> bool
    ensures { result ≡ conflicting a b }
{
    shares_in(INPUTS, a, b) || shares_in(OUTPUTS, a, b)
}
