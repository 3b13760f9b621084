// The last place that has a label, or a tape, and so their numbers.
ghost use Rattle.std.specs.Prelude.{cond, true, ◌≡◌, ◌+◌, ◌-◌, ◌/◌, ◌<◌, ◌≤◌, eqb, get_or, length};
ghost use Rattle.codec.specs.Codec.{place_of, record_size};
ghost use Rattle.index.specs.Places.{Holds, Numbered, Sought, bucket_of, buckets, fits, frames_at, label_at, slot_job};

use crate::{BUCKETS, HEADS, LINKS, PLACES};
use record::Entry;

pub fn bucket(label: u64) -> usize
    ensures { (result ≡ bucket_of label) × (result < buckets) }
{
    (label % BUCKETS as u64) as usize
}

// The number at a place of the table.
pub(crate) fn number(numbers: &[u16], at: usize) -> usize
    requires { at < length numbers.now }
    ensures { (result ≡ get_or numbers.now at 0) × (result < 65536) }
{
    usize::from(numbers[at])
}

// They are the tape's label and frames.
#[tactic(auto, unfolding(crate::specs::Places::fits))]
fn agree(label: u64, frames: u32, l: u64, f: u32) -> bool
    ensures { result ≡ fits true label frames l f }
{
    l == label && f == frames
}

// The entry at a place, where it stands in the journal.
fn entry_at(version: u16, journal: &[u8], at: usize) -> Entry
    requires { place_of version (at / 8) + record_size version ≤ length journal.now }
    ensures { (result.label ≡ label_at (slot_job version journal.now) at) × (result.frames ≡ frames_at (slot_job version journal.now) at) }
{
    codec::entry_of(journal::slot(version, journal, at / 8), at % 8)
}

// The numbers of a place: of its label, and of its tape.
#[derive(Clone, Copy)]
pub struct Pair {
    pub label: usize,
    pub tape: usize,
}

// The number of the label that was seen at the place before x, or m where none was.
fn label_number(numbers: &[u16], seen: usize, m: usize) -> usize
    requires { (seen ≤ m) × (m ≤ length numbers.now) }
    ensures { result ≡ cond (eqb seen 0) m (get_or numbers.now (seen - 1) 0) }
{
    if seen == 0 {
        return m;
    }
    number(numbers, seen - 1)
}

// The numbers of a tape among the first m places. The walk ends at a place that has the tape, which has both; else some place that it
// passed may have the label.
pub fn numbers_of(
    version: u16,
    journal: &[u8],
    numbers: &[u16],
    label: u64,
    frames: u32,
    m: usize,
) -> Pair
    requires { Holds version journal.now m × Numbered (slot_job version journal.now) m numbers.now }
    ensures { Sought (slot_job version journal.now) label frames m result.label result.tape }
{
    let mut seen = 0;
    let mut x = number(numbers, HEADS + bucket(label));
    while 0 < x {
        let at = x - 1;
        let there = entry_at(version, journal, at);
        if agree(label, frames, there.label, there.frames) {
            return Pair {
                label: number(numbers, at),
                tape: number(numbers, PLACES + at),
            };
        }
        if there.label == label {
            seen = x;
        }
        x = number(numbers, LINKS + at);
    }
    Pair {
        label: label_number(numbers, seen, m),
        tape: m,
    }
}
