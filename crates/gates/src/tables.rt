// The index of a lent journal, for the decisions that look into one.
ghost use Rattle.std.specs.Prelude.{◌*◌, ◌≤◌, length};
ghost use Rattle.codec.specs.Codec.{place_of};
ghost use Rattle.index.specs.Index.{Blank, Indexed};
ghost use Rattle.journal.specs.Journal.{capacity};

#[derive(Drop)]
pub struct Tables {
    pub numbers: [u16; index::NUMBERS],
    pub sets: [u64; index::SETS],
    pub records: [u16; index::RECORDS],
}

impl Tables {
    // Those of no records.
    pub fn blank() -> Tables
        ensures { Blank result.numbers result.sets result.records }
    {
        Tables {
            numbers: [0; index::NUMBERS],
            sets: [0; index::SETS],
            records: [0; index::RECORDS],
        }
    }

    // Enters the first n records. In place, since a table that is handed back by value is copied.
    pub fn enter(&mut self, version: u16, journal: &[u8], n: usize)
        requires { (n ≤ capacity) × (place_of version n ≤ length journal.now) × Blank self.old.numbers self.old.sets self.old.records }
        ensures { Indexed version journal.now n self.new.numbers self.new.sets self.new.records }
    {
        indexing::build(
            &mut self.numbers,
            &mut self.sets,
            &mut self.records,
            version,
            journal,
            n,
        );
    }
}
