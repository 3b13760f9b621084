// The jobs that a vault misses, by the index: what stands at an input's number; of the records only the count of inputs is read.
#![tactic(auto)]

ghost use Rattle.std.specs.Prelude.{◌≡◌, ◌*◌, ◌+◌, ◌<◌};
ghost use Rattle.journal.specs.Journal.{capacity, job_at};
ghost use Rattle.index.specs.Index.{IndexedEntries};
ghost use Rattle.index.specs.Places.{places};
ghost use Rattle.index.specs.Sets.{Tables};
ghost use Rattle.supplies.specs.Suppliers.{missing_by, suppliers_by};
ghost use Rattle.supplies.specs.Missing.{missing_jobs};

use job_sets::JobSet;

// Those that make input e, of so many, where no held job makes it.
fn suppliers(
    numbers: &[u16],
    sets: &[u64],
    count: usize,
    held: JobSet,
    elsewhere: JobSet,
    job: usize,
    e: usize,
) -> JobSet
    requires { (e < 4) × (job < capacity) × Tables numbers.now sets.now }
    ensures { result ≡ suppliers_by numbers.now sets.now count (places + 8 * job) held elsewhere e }
{
    if e < count {
        let makers = index::makers(numbers, sets, job, e);
        if makers.meets(held) {
            return JobSet::empty();
        }
        return makers.common(elsewhere);
    }
    JobSet::empty()
}

fn missing_by(
    numbers: &[u16],
    sets: &[u64],
    count: usize,
    held: JobSet,
    elsewhere: JobSet,
    job: usize,
) -> JobSet
    requires { (job < capacity) × Tables numbers.now sets.now }
    ensures { result ≡ missing_by numbers.now sets.now count (places + 8 * job) held elsewhere 4 }
{
    let mut jobs = JobSet::empty();
    for e in 0..4 {
        jobs = suppliers(numbers, sets, count, held, elsewhere, job, e).union(jobs);
    }
    jobs
}

// Of a booked job, where a vault holds `held`, and correct vaults hold `elsewhere`.
pub fn missing(
    numbers: &[u16],
    sets: &[u64],
    version: u16,
    journal: &[u8],
    n: usize,
    held: JobSet,
    elsewhere: JobSet,
    job: usize,
) -> JobSet
    requires { (job < n) × IndexedEntries version journal.now n numbers.now sets.now }
    ensures { result ≡ missing_jobs (job_at version journal.now n) n held elsewhere (job_at version journal.now n job) }
{
    let part = journal::lookup(version, journal, n, job);
    let inputs = codec::inputs_of(part) as usize;
    missing_by(numbers, sets, inputs, held, elsewhere, job)
}
