// Checks 7 and 8, and checks 6 to 9 in the order of document 01's table.
#![tactic(auto)]

ghost use Rattle.std.specs.Prelude.{◌≡◌};
ghost use Rattle.base.specs.Search.{FirstFound, any_below};
ghost use Rattle.drives.specs.Drives.{supports};
ghost use Rattle.record.specs.Entries.{label_of};
ghost use Rattle.record.specs.Labels.{medium_of};
ghost use Rattle.checks.specs.Checks.{has_label_of, repeated_at, is_written, unsupported_at, check_of, examined};

use outcome::{Refusal, Verdict};
use record::{Job, entries, labels};

// Entry k is used and has the label of entry i.
#[tactic(auto, unfolding(checks::specs::Checks::has_label_of))]
fn has_label_of(job: Job, i: usize, k: usize) -> bool
    ensures { result ≡ has_label_of job i k }
{
    entries::used(job, k) && entries::label(job, k) == entries::label(job, i)
}

fn seen_before(job: Job, i: usize) -> bool
    ensures { result ≡ any_below i (has_label_of job i) }
{
    (0..i).any(|k| has_label_of(job, i, k))
}

#[tactic(auto, unfolding(checks::specs::Checks::repeated_at))]
fn repeated_at(job: Job, i: usize) -> bool
    ensures { result ≡ repeated_at job i }
{
    entries::used(job, i) && seen_before(job, i)
}

// Check 7: the first entry whose label an earlier one has.
fn first_repeated(job: Job) -> Option<u8>
    ensures { FirstFound 8 (repeated_at job) result }
{
    (0..8).find(|&i| repeated_at(job, usize::from(i)))
}

// Outputs of a migration are written; every other entry is only read.
#[tactic(auto, unfolding(checks::specs::Checks::is_written))]
fn is_written(job: Job, i: usize) -> bool
    ensures { result ≡ is_written job i }
{
    4 <= i && job.kind == 1
}

// Whether the drive reads the medium of entry i, or writes it; a label that names no medium has none.
#[tactic(auto, using(drives::proofs::Table::none_supported))]
fn is_supported(job: Job, i: usize) -> bool
    ensures { result ≡ supports (is_written job i) job.drive (medium_of (label_of job i)) }
{
    match labels::medium_of(entries::label(job, i)) {
        Some(medium) => drives::supports(is_written(job, i), job.drive, medium),
        None => false,
    }
}

#[tactic(auto, unfolding(checks::specs::Checks::unsupported_at))]
fn unsupported_at(job: Job, i: usize) -> bool
    ensures { result ≡ unsupported_at job i }
{
    entries::used(job, i) && !is_supported(job, i)
}

// Check 8: the first entry that the drive can't read or write.
fn first_unsupported(job: Job) -> Option<u8>
    ensures { FirstFound 8 (unsupported_at job) result }
{
    (0..8).find(|&i| unsupported_at(job, usize::from(i)))
}

// The first of checks 6 to 9 that the job fails.
#[tactic(auto, unfolding(checks::specs::Checks::check_of))]
pub fn check(job: Job) -> Verdict
    ensures { result ≡ check_of job }
{
    if !forms::well_formed(job) {
        return Err(Refusal::Malformed);
    }
    if let Some(entry) = first_repeated(job) {
        return Err(Refusal::Repeated(entry));
    }
    if let Some(entry) = first_unsupported(job) {
        return Err(Refusal::Unsupported(entry));
    }
    if balances::is_balanced(job) {
        Ok(())
    } else {
        Err(Refusal::Unbalanced)
    }
}

// The same of a record's bytes; any other number of bytes than the version's records have is malformed.
pub fn examine(version: u16, bytes: &[u8]) -> Verdict
    ensures { result ≡ examined version bytes.now }
{
    if bytes.len() == codec::record_size(version) {
        check(records::read(version, bytes))
    } else {
        Err(Refusal::Malformed)
    }
}
