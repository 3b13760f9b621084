// What is asked of the index: checks 11 to 14.
#![tactic(auto)]

ghost use Rattle.std.specs.Prelude.{◌≡◌, ◌+◌, ◌<◌, ◌≤◌};
ghost use Rattle.base.specs.Search.{FirstFound};
ghost use Rattle.index.specs.Index.{IndexedEntries};
ghost use Rattle.index.specs.Places.{links_at};
ghost use Rattle.index.specs.Sets.{Tables};
ghost use Rattle.journal.specs.Journal.{capacity, job_at};
ghost use Rattle.queries.specs.Admission.{admission};
ghost use Rattle.queries.specs.Checks.{offends_at, consumed_by, remade_by, admission_by};

use index::{MAKERS, PLACES, READERS, WRITERS};
use job_sets::JobSet;
use outcome::{Refusal, Verdict};

// Entry e is one of so many, and offends against s: no job of s makes its tape, or some job of s has its label.
fn offends_at(
    numbers: &[u16],
    sets: &[u64],
    count: usize,
    at: usize,
    kind: usize,
    s: JobSet,
    e: usize,
) -> bool
    requires { (e < 4) × (at + 4 ≤ links_at) × (kind < 3) × Tables numbers.now sets.now }
    ensures { result ≡ offends_at numbers.now sets.now count at kind s e }
{
    e < count && index::set_of(numbers, sets, at + e, kind).meets(s) != (kind == MAKERS)
}

// The first of four entries that offends.
pub fn first_offending(
    numbers: &[u16],
    sets: &[u64],
    count: usize,
    at: usize,
    kind: usize,
    s: JobSet,
) -> Option<usize>
    requires { (at + 4 ≤ links_at) × (kind < 3) × Tables numbers.now sets.now }
    ensures { FirstFound 4 (offends_at numbers.now sets.now count at kind s) result }
{
    (0..4).find(|e| offends_at(numbers, sets, count, at, kind, s, *e))
}

// Checks 12 and 13.
fn consumed(
    numbers: &[u16],
    sets: &[u64],
    inputs: usize,
    held: JobSet,
    others: JobSet,
    job: usize,
) -> Verdict
    requires { (job < capacity) × Tables numbers.now sets.now }
    ensures { result ≡ consumed_by numbers.now sets.now inputs held others job }
{
    if let Some(retired) = first_offending(numbers, sets, inputs, 8 * job, READERS, held) {
        return Err(Refusal::Retired(retired as u8));
    }
    if let Some(reserved) = first_offending(numbers, sets, inputs, 8 * job, READERS, others) {
        return Err(Refusal::InputReserved(reserved as u8));
    }
    Ok(())
}

// Check 14, against the jobs that are held or signed.
fn remade(numbers: &[u16], sets: &[u64], outputs: usize, known: JobSet, job: usize) -> Verdict
    requires { (job < capacity) × Tables numbers.now sets.now }
    ensures { result ≡ remade_by numbers.now sets.now outputs known job }
{
    if let Some(remade) = first_offending(numbers, sets, outputs, 8 * job + 4, WRITERS, known) {
        return Err(Refusal::OutputReserved(4 + remade as u8));
    }
    Ok(())
}

// Of a job with so many inputs and outputs. Which of checks 12 and 13 fails is looked for only where one does.
fn admission_by(
    numbers: &[u16],
    sets: &[u64],
    inputs: usize,
    outputs: usize,
    held: JobSet,
    others: JobSet,
    job: usize,
) -> Verdict
    requires { (job < capacity) × Tables numbers.now sets.now }
    ensures { result ≡ admission_by numbers.now sets.now inputs outputs held others job }
{
    let at = 8 * job;
    if let Some(missing) = first_offending(numbers, sets, inputs, PLACES + at, MAKERS, held) {
        return Err(Refusal::NotCreated(missing as u8));
    }
    let known = held.union(others);
    if first_offending(numbers, sets, inputs, at, READERS, known).is_some() {
        return consumed(numbers, sets, inputs, held, others, job);
    }
    remade(numbers, sets, outputs, known, job)
}

// Checks 11 to 14 of a booked job, against the jobs that a vault holds and the others that it signed.
pub fn admission(
    numbers: &[u16],
    sets: &[u64],
    version: u16,
    journal: &[u8],
    n: usize,
    held: JobSet,
    others: JobSet,
    job: usize,
) -> Verdict
    requires { (job < n) × IndexedEntries version journal.now n numbers.now sets.now }
    ensures { result ≡ admission (job_at version journal.now n) n held others (job_at version journal.now n job) }
{
    let part = journal::lookup(version, journal, n, job);
    let inputs = codec::inputs_of(part) as usize;
    let outputs = codec::outputs_of(part) as usize;
    admission_by(numbers, sets, inputs, outputs, held, others, job)
}
