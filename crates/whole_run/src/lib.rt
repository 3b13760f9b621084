// A run file carried out to its end; its text is not kept.
#![tactic(auto)]

ghost use Rattle.std.specs.Prelude.{true, ◌≡◌};
ghost use Rattle.whole_run.specs.RanOut.{RanOut};
ghost use Rattle.progress.specs.Pieces.{blank};
ghost use Rattle.runfile.specs.Run.{journal_size, opens};

use ledger::Ledger;

pub fn run_out(input: &[u8], journal: &mut [u8]) -> Ledger
    requires { (opens input.now ≡ true) × (journal.old ≡ blank journal_size) }
    ensures { RanOut input.now result journal.new }
{
    let mut memo = [0u8; journal::CAPACITY];
    let mut numbers = [0u16; index::NUMBERS];
    let mut sets = [0u64; index::SETS];
    let mut records = [0u16; index::RECORDS];
    let mut out = [0u8; run::PIECE];
    let mut progress = run::start(input, &mut out);
    while progress.pos < input.len() {
        progress = run::advance(
            progress,
            &mut memo,
            journal,
            &mut numbers,
            &mut sets,
            &mut records,
            input,
            &mut out,
        );
    }
    progress.ledger
}
