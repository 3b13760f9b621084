// The parts of a record: sizes, numbers and entries, and the definitions of the whole, which the crate `records` reads and writes.
#![tactic(auto)]

ghost use Rattle.std.specs.Prelude.{◌≡◌, ◌+◌, ◌*◌, ◌≤◌, ◌<◌, ◌^◌, length, get_or};
ghost use Rattle.std.proofs.lemmas.List.Edits.{sets};
ghost use Rattle.codec.specs.Codec.{le_at, le_bytes, entry_at, entry_bytes, job_of};
ghost use Rattle.codec.specs.Codec.{says_trimmed, record_size, place_of, whole_in};
ghost use Rattle.record.specs.Entries.{no_entry};

use record::Entry;

// How many bytes the longest record has, an entry, what stands before the entries, and what before the trimmed frames.
pub const LONGEST: usize = 104;

pub const ENTRY: usize = 12;

pub const HEAD: usize = 4;

pub const BODY: usize = 100;

// Whether records of the version say how many frames are trimmed.
pub fn says_trimmed(version: u16) -> bool
    ensures { result ≡ says_trimmed version }
{
    version == 2
}

// How many bytes a record has.
pub fn record_size(version: u16) -> usize
    ensures { (result ≡ record_size version) × ((100 ≤ result) × (result ≤ 104)) }
{
    if says_trimmed(version) { LONGEST } else { BODY }
}

// Where record k begins in a row of records. Asked only of records that lie in memory, so their places are numbers of 64 bits.
pub fn place(version: u16, k: usize) -> usize
    requires { place_of version k < 2 ^ 64 }
    ensures { result ≡ place_of version k }
{
    record_size(version) * k
}

// How many whole records n bytes hold.
pub fn whole_in(version: u16, n: usize) -> usize
    ensures { result ≡ whole_in version n }
{
    n / record_size(version)
}

// The byte at i; past the end it counts as 0.
pub fn byte_at(s: &[u8], i: usize) -> u8
    ensures { result ≡ get_or s.now i 0 }
{
    s.get(i).copied().unwrap_or(0)
}

// The little-endian number of count bytes from at on.
pub fn number_at(s: &[u8], at: usize, count: usize) -> u64
    requires { (at ≤ 65536) × (count ≤ 8) }
    ensures { (result ≡ le_at s.now at count) × (result < 2 ^ (8 * count)) }
{
    let mut acc: u64 = 0;
    for k in (0..count).rev() {
        acc = acc * 256 + byte_at(s, at + k) as u64;
    }
    acc
}

// The number of the four bytes from at on, which all lie inside.
fn four_in(s: &[u8], at: usize) -> u32
    requires { at + 4 ≤ length s.now }
    ensures { result ≡ le_at s.now at 4 }
{
    u32::from_le_bytes([s[at], s[at + 1], s[at + 2], s[at + 3]])
}

// An entry that lies inside. Its label is two halves of four bytes, the upper one times 2 ^ 32.
fn entry_in(s: &[u8], at: usize) -> Entry
    requires { at + 12 ≤ length s.now }
    ensures { result ≡ entry_at s.now at }
{
    Entry {
        label: four_in(s, at) as u64 + 4294967296 * four_in(s, at + 4) as u64,
        frames: four_in(s, at + 8),
    }
}

// Any entry; only one that is cut short is read byte by byte.
pub fn entry_at(s: &[u8], at: usize) -> Entry
    requires { at < 60000 }
    ensures { result ≡ entry_at s.now at }
{
    if at + ENTRY <= s.len() {
        return entry_in(s, at);
    }
    Entry {
        label: number_at(s, at, 8),
        frames: number_at(s, at + 8, 4) as u32,
    }
}

// Entry e of the job that the bytes say; past the eighth there is none.
pub fn entry_of(bytes: &[u8], e: usize) -> Entry
    ensures { result ≡ get_or (job_of bytes.now).entries e no_entry }
{
    if e < 8 {
        return entry_at(bytes, HEAD + ENTRY * e);
    }
    Entry {
        label: 0,
        frames: 0,
    }
}

// How many inputs the job has that the bytes say, and how many outputs.
pub fn inputs_of(bytes: &[u8]) -> u8
    ensures { result ≡ (job_of bytes.now).inputs }
{
    byte_at(bytes, 2)
}

pub fn outputs_of(bytes: &[u8]) -> u8
    ensures { result ≡ (job_of bytes.now).outputs }
{
    byte_at(bytes, 3)
}

// A number's bytes, the low one first, where there is room for them.
pub fn put_number(out: &mut [u8], at: usize, count: usize, value: u64)
    requires { at + count ≤ length out.old }
    ensures { out.new ≡ sets out.old at (le_bytes count value) }
{
    let mut v = value;
    for k in 0..count {
        out[at + k] = (v % 256) as u8;
        v /= 256;
    }
}

pub fn put_entry(out: &mut [u8], at: usize, entry: Entry)
    requires { at + 12 ≤ length out.old }
    ensures { out.new ≡ sets out.old at (entry_bytes entry) }
{
    put_number(out, at, 8, entry.label);
    put_number(out, at + 8, 4, entry.frames as u64);
}
