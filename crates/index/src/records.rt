// Booked records by a sum of their entries.
ghost use Rattle.std.specs.Prelude.{◌≡◌, ◌*◌, ◌+◌, ◌<◌, ◌≤◌, length};
ghost use Rattle.base.specs.Search.{first_below};
ghost use Rattle.codec.specs.Codec.{job_of};
ghost use Rattle.journal.specs.Journal.{capacity, equal_at};
ghost use Rattle.index.specs.Index.{IndexedRecords};
ghost use Rattle.index.specs.Places.{buckets};
ghost use Rattle.index.specs.Records.{records_size, records_with, sum_of};

use crate::{BUCKETS, seeking};
use record::Job;

// The remainder of the entries as a whole.
fn sum(a: Job) -> usize
    ensures { (result ≡ sum_of a) × (result < buckets) }
{
    let mut sum = 0;
    for e in 0..8 {
        let label = seeking::bucket(record::label(a, e));
        let frames = record::frames(a, e) as usize;
        sum = (31 * sum + label + frames) % BUCKETS;
    }
    sum
}

// Files job n. The links follow the heads.
pub fn file(records: &mut [u16], a: Job, n: usize)
    requires { (n < capacity) × (length records.old ≡ records_size) }
    ensures { records.new ≡ records_with records.old (sum_of a) n }
{
    let b = sum(a);
    let head = records[b];
    records[BUCKETS + n] = head;
    records[b] = (n + 1) as u16;
}

// The first of n records that has the bytes, which say job a, or n. The chain leads to the first at last.
pub fn find(records: &[u16], version: u16, journal: &[u8], bytes: &[u8], a: Job, n: usize) -> usize
    requires { (a ≡ job_of bytes.now) × IndexedRecords version journal.now n records.now }
    ensures { result ≡ first_below n (equal_at version journal.now bytes.now) }
{
    let mut found = n;
    let mut x = seeking::number(records, sum(a));
    while 0 < x {
        let k = x - 1;
        if journal::equal_at(version, journal, bytes, k) {
            found = k;
        }
        x = seeking::number(records, BUCKETS + k);
    }
    found
}
