// The sets of jobs at a number: of those that have the label as an input, as an output, and that make the tape.
ghost use Rattle.std.specs.Prelude.{◌≡◌, ◌+◌, ◌*◌, ◌<◌};
ghost use Rattle.job_sets.specs.Jobs.{InWords};
ghost use Rattle.index.specs.Places.{links_at, places};
ghost use Rattle.index.specs.Sets.{Tables, set_of};

use crate::{MAKERS, PLACES, seeking, words};
use job_sets::JobSet;

pub fn set_of(numbers: &[u16], sets: &[u64], at: usize, kind: usize) -> JobSet
    requires { (at < links_at) × (kind < 3) × Tables numbers.now sets.now }
    ensures { (result ≡ set_of numbers.now sets.now at kind) × InWords result }
{
    words::set_at(sets, 6 * seeking::number(numbers, at) + 2 * kind)
}

// The jobs that make the tape of entry e of job k.
pub fn makers(numbers: &[u16], sets: &[u64], k: usize, e: usize) -> JobSet
    requires { (k < 128) × (e < 8) × Tables numbers.now sets.now }
    ensures { (result ≡ set_of numbers.now sets.now (places + 8 * k + e) 2) × InWords result }
{
    set_of(numbers, sets, PLACES + 8 * k + e, MAKERS)
}
