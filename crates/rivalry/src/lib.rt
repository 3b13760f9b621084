// Whether two booked jobs conflict, and all rivals of one, by the index: no labels are compared.
#![tactic(auto)]

ghost use Rattle.std.specs.Prelude.{◌≡◌, ◌+◌, ◌<◌, ◌≤◌};
ghost use Rattle.conflicts.specs.Conflicts.{conflicting};
ghost use Rattle.job_sets.specs.Jobs.{InWords};
ghost use Rattle.journal.specs.Journal.{capacity, job_at};
ghost use Rattle.index.specs.Index.{IndexedEntries};
ghost use Rattle.index.specs.Places.{links_at};
ghost use Rattle.index.specs.Sets.{Tables};
ghost use Rattle.rivalry.specs.Rivals.{conflicts_by, rivals_by, rivals_of, sharers_by};

use index::{READERS, WRITERS};
use job_sets::JobSet;

// A job with so many inputs and outputs, against a set of jobs.
fn conflicts_by(
    numbers: &[u16],
    sets: &[u64],
    inputs: usize,
    outputs: usize,
    s: JobSet,
    job: usize,
) -> bool
    requires { (job < capacity) × Tables numbers.now sets.now }
    ensures { result ≡ conflicts_by numbers.now sets.now inputs outputs s job }
{
    queries::first_offending(numbers, sets, inputs, 8 * job, READERS, s).is_some()
        || queries::first_offending(numbers, sets, outputs, 8 * job + 4, WRITERS, s).is_some()
}

pub fn conflict(
    numbers: &[u16],
    sets: &[u64],
    version: u16,
    journal: &[u8],
    n: usize,
    job: usize,
    other: usize,
) -> bool
    requires { (job < n) × (other < n) × IndexedEntries version journal.now n numbers.now sets.now }
    ensures { result ≡ conflicting (job_at version journal.now n job) (job_at version journal.now n other) }
{
    let part = journal::lookup(version, journal, n, job);
    let inputs = codec::inputs_of(part) as usize;
    let outputs = codec::outputs_of(part) as usize;
    conflicts_by(
        numbers,
        sets,
        inputs,
        outputs,
        JobSet::empty().with(other),
        job,
    )
}

// The jobs at the labels of one side.
fn sharers(numbers: &[u16], sets: &[u64], count: usize, at: usize, kind: usize) -> JobSet
    requires { (at + 4 ≤ links_at) × (kind < 3) × Tables numbers.now sets.now }
    ensures { (result ≡ sharers_by numbers.now sets.now count at kind 4) × InWords result }
{
    let mut found = JobSet::empty();
    for e in 0..4 {
        if e < count {
            found = index::set_of(numbers, sets, at + e, kind).union(found);
        }
    }
    found
}

fn rivals_by(numbers: &[u16], sets: &[u64], inputs: usize, outputs: usize, job: usize) -> JobSet
    requires { (job < capacity) × Tables numbers.now sets.now }
    ensures { (result ≡ rivals_by numbers.now sets.now inputs outputs job) × InWords result }
{
    let readers = sharers(numbers, sets, inputs, 8 * job, READERS);
    let writers = sharers(numbers, sets, outputs, 8 * job + 4, WRITERS);
    readers.union(writers).without(job)
}

// All rivals of a booked job.
pub fn rivals_of(
    numbers: &[u16],
    sets: &[u64],
    version: u16,
    journal: &[u8],
    n: usize,
    job: usize,
) -> JobSet
    requires { (job < n) × IndexedEntries version journal.now n numbers.now sets.now }
    ensures { result ≡ rivals_of (job_at version journal.now n) n job }
{
    let part = journal::lookup(version, journal, n, job);
    let inputs = codec::inputs_of(part) as usize;
    let outputs = codec::outputs_of(part) as usize;
    rivals_by(numbers, sets, inputs, outputs, job)
}
