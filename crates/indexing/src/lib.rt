// A booked job is entered in the index, entry by entry; the index of a journal is made at once.
#![tactic(auto)]

ghost use Rattle.std.specs.Prelude.{◌≡◌, ◌*◌, ◌+◌, ◌<◌, ◌≤◌, length};
ghost use Rattle.codec.specs.Codec.{place_of};
ghost use Rattle.journal.specs.Journal.{capacity};
ghost use Rattle.index.specs.Entering.{Entries, numbers_with, sets_with};
ghost use Rattle.index.specs.Index.{Blank, HasRecord, Indexed};
ghost use Rattle.index.specs.Places.{Holds, UsedEntry, buckets, numbers_size, places, sets_size, slot_job};

use index::{HEADS, LINKS, PLACES};
use journal::CAPACITY;
use record::Job;

// Stores the numbers of place m, which is in bucket b, and links it.
fn put(numbers: &mut [u16], m: usize, label: usize, tape: usize, b: usize)
    requires { (m < places) × (label ≤ m) × (tape ≤ m) × (b < buckets) × (length numbers.old ≡ numbers_size) }
    ensures { numbers.new ≡ numbers_with numbers.old m label tape b }
{
    let head = numbers[HEADS + b];
    numbers[m] = label as u16;
    numbers[PLACES + m] = tape as u16;
    numbers[LINKS + m] = head;
    numbers[HEADS + b] = (m + 1) as u16;
}

// Enters job n at the numbers of its entry e.
fn mark(sets: &mut [u64], label: usize, tape: usize, n: usize, e: usize)
    requires { (label < places) × (tape < places) × (n < capacity) × (length sets.old ≡ sets_size) }
    ensures { sets.new ≡ sets_with sets.old label tape n e }
{
    if e < 4 {
        index::mark(sets, CAPACITY * (3 * label) + n);
        return;
    }
    index::mark(sets, CAPACITY * (3 * label + 1) + n);
    index::mark(sets, CAPACITY * (3 * tape + 2) + n);
}

// Enters place m, which is used and has the label and the frames.
fn enter_used(
    numbers: &mut [u16],
    sets: &mut [u64],
    version: u16,
    journal: &[u8],
    m: usize,
    label: u64,
    frames: u32,
)
    requires { Holds version journal.now (m + 1) × UsedEntry (slot_job version journal.now) m label frames
        × Entries (slot_job version journal.now) m numbers.old sets.old }
    ensures { Entries (slot_job version journal.now) (m + 1) numbers.new sets.new }
{
    let own = index::numbers_of(version, journal, &numbers[..], label, frames, m);
    mark(sets, own.label, own.tape, m / 8, m % 8);
    put(numbers, m, own.label, own.tape, index::bucket(label));
}

// Enters entry e of job n, which is a, where it is used.
fn enter_entry(
    numbers: &mut [u16],
    sets: &mut [u64],
    version: u16,
    journal: &[u8],
    a: Job,
    n: usize,
    e: usize,
)
    requires { (e < 8) × HasRecord version journal.now n × (a ≡ slot_job version journal.now n)
        × Entries (slot_job version journal.now) (8 * n + e) numbers.old sets.old }
    ensures { Entries (slot_job version journal.now) (8 * n + e + 1) numbers.new sets.new }
{
    if record::used(a, e) {
        enter_used(
            numbers,
            sets,
            version,
            journal,
            8 * n + e,
            record::label(a, e),
            record::frames(a, e),
        );
        return;
    }
}

// Enters the entries of job n, which is a.
fn enter_entries(
    numbers: &mut [u16],
    sets: &mut [u64],
    version: u16,
    journal: &[u8],
    a: Job,
    n: usize,
)
    requires { HasRecord version journal.now n × (a ≡ slot_job version journal.now n)
        × Entries (slot_job version journal.now) (8 * n) numbers.old sets.old }
    ensures { Entries (slot_job version journal.now) (8 * (n + 1)) numbers.new sets.new }
{
    for e in 0..8 {
        enter_entry(numbers, sets, version, journal, a, n, e);
    }
}

// Enters record n, which says job a.
pub fn enter(
    numbers: &mut [u16],
    sets: &mut [u64],
    records: &mut [u16],
    version: u16,
    journal: &[u8],
    a: Job,
    n: usize,
)
    requires { HasRecord version journal.now n × (a ≡ slot_job version journal.now n)
        × Indexed version journal.now n numbers.old sets.old records.old }
    ensures { Indexed version journal.now (n + 1) numbers.new sets.new records.new }
{
    enter_entries(numbers, sets, version, journal, a, n);
    index::file(records, a, n);
}

// Enters the first n records in tables of zeros.
pub fn build(
    numbers: &mut [u16],
    sets: &mut [u64],
    records: &mut [u16],
    version: u16,
    journal: &[u8],
    n: usize,
)
    requires { (n ≤ capacity) × (place_of version n ≤ length journal.now) × Blank numbers.old sets.old records.old }
    ensures { Indexed version journal.now n numbers.new sets.new records.new }
{
    for k in 0..n {
        enter(
            numbers,
            sets,
            records,
            version,
            journal,
            records::read(version, journal::slot(version, journal, k)),
            k,
        );
    }
}
