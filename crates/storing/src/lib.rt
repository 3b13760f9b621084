// A new record is put after the booked ones and entered in the index; no other change touches either.
#![tactic(auto)]

ghost use Rattle.std.specs.Prelude.{◌≤◌, drop, take};
ghost use Rattle.codec.specs.Codec.{record_size};
ghost use Rattle.index.specs.Index.{Indexed};
ghost use Rattle.ledger.specs.Given.{Writable};
ghost use Rattle.runfile.specs.Run.{longest};
ghost use Rattle.storing.specs.Stored.{Stored};

use ledger::Change;

pub fn store(
    change: Change,
    numbers: &mut [u16],
    sets: &mut [u64],
    records: &mut [u16],
    version: u16,
    journal: &mut [u8],
    booked: usize,
    input: &[u8],
    at: usize,
)
    requires { Writable change booked version journal.old (take (record_size version) (drop at input.now))
        × Indexed version journal.old booked numbers.old sets.old records.old
        × (at ≤ longest) }
    ensures { Stored change booked version journal.old (take (record_size version) (drop at input.now))
        journal.new numbers.new sets.new records.new }
{
    if changes::is_book(change) {
        let bytes = fields::record_at(version, input, at);
        journal::put_at(version, journal, booked, bytes);
        indexing::enter(
            numbers,
            sets,
            records,
            version,
            &journal[..],
            records::read(version, bytes),
            booked,
        );
        return;
    }
}
