// The lent journal: its records as parts of it, what lies inside, and room for one more.
#![tactic(auto)]

ghost use Rattle.std.specs.Prelude.{◌≡◌, ◌+◌, ◌≤◌, length};
ghost use Rattle.codec.specs.Codec.{place_of, record_size};
ghost use Rattle.journal.specs.Journal.{is_whole, is_booked, record_at, inside_of, slot_at, equal_at, has_room, put_at};

// How many records a journal books at most.
pub const CAPACITY: usize = 128;

// Check 4 of a step that names no job: every booked record lies wholly inside. Counted in whole records, because a product could overflow.
pub fn is_whole(version: u16, journal: &[u8], booked: usize) -> bool
    ensures { result ≡ is_whole version journal.now booked }
{
    booked <= codec::whole_in(version, journal.len())
}

// Check 4: the job is booked, and every booked record lies wholly inside.
pub fn is_booked(version: u16, journal: &[u8], booked: usize, job: usize) -> bool
    ensures { result ≡ is_booked version journal.now booked job }
{
    is_whole(version, journal, booked) && job < booked
}

// The job's record inside the journal, or the empty part where check 4 fails.
pub fn lookup(version: u16, journal: &[u8], booked: usize, job: usize) -> &[u8]
    ensures { result.now ≡ record_at version journal.now booked job }
{
    if is_booked(version, journal, booked, job) {
        return slot(version, journal, job);
    }
    &journal[..0]
}

// The bytes in place k. A helper for whoever keeps a journal, not a step: the place lies inside. The index reads entries by it, and a test
// here would stand in each of its reads.
pub fn slot(version: u16, journal: &[u8], k: usize) -> &[u8]
    requires { place_of version k + record_size version ≤ length journal.now }
    ensures { result.now ≡ slot_at version journal.now k }
{
    let at = codec::place(version, k);
    let end = at + codec::record_size(version);
    &journal[at..end]
}

// How many booked records lie wholly inside.
pub fn inside(version: u16, journal: &[u8], booked: usize) -> usize
    ensures { result ≡ inside_of version journal.now booked }
{
    booked.min(codec::whole_in(version, journal.len()))
}

// The bytes in place k, which lies inside, are these.
pub fn equal_at(version: u16, journal: &[u8], bytes: &[u8], k: usize) -> bool
    requires { place_of version k + record_size version ≤ length journal.now }
    ensures { result ≡ equal_at version journal.now bytes.now k }
{
    check::same(slot(version, journal, k), bytes)
}

// Check 10: fewer than 128 records are booked, and one more lies wholly inside.
pub fn has_room(version: u16, journal: &[u8], booked: usize) -> bool
    ensures { result ≡ has_room version journal.now booked }
{
    booked < CAPACITY && booked < codec::whole_in(version, journal.len())
}

// Puts a record's bytes in place k. A helper for whoever keeps a journal, not a step: the caller has the room.
pub fn put_at(version: u16, journal: &mut [u8], k: usize, bytes: &[u8])
    requires { (place_of version k + record_size version ≤ length journal.old) × (length bytes.now ≡ record_size version) }
    ensures { journal.new ≡ put_at version journal.old k bytes.now }
{
    let from = codec::place(version, k);
    let until = from + codec::record_size(version);
    journal[from..until].copy_from_slice(bytes);
}
