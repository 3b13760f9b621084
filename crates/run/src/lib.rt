// A run file carried out, its text in pieces.
#![tactic(auto)]

ghost use Rattle.std.specs.Prelude.{◌+◌, ◌<◌, ◌≤◌, length};
ghost use Rattle.progress.specs.Pieces.{Advanced, Going, Started};
ghost use Rattle.progress.specs.Turns.{Holds, TurnedOnce};
ghost use Rattle.text.specs.Text.{longest_text};

use codec::LONGEST;
use job_sets::JobSet;
use journal::CAPACITY;
use outcome::{Outcome, Refusal};
use progress::{Progress, Turned};

// The run's own journal has room for records of either version.
pub const JOURNAL: usize = LONGEST * CAPACITY;

// A piece of the text; any size that takes the longest text of one step would do.
pub const PIECE: usize = 32768;

// No file has more steps.
const EVERY: u32 = 65536;

// The run of any input begins on tables of zeros. Where check 1 turns it back, its line is written and nothing is left to read.
pub fn start(input: &[u8], out: &mut [u8]) -> Progress
    requires { longest_text ≤ length out.old }
    ensures { Started input.now out.old out.new result }
{
    if header::opens(input) {
        let settings = header::settings_in(input);
        let reply = books::new(settings.n, settings.b, settings.faulty, settings.version);
        let ledger = reply.ledger;
        return Progress {
            ledger,
            pos: header::SIZE,
            count: 0,
            written: 0,
        };
    }
    let n = text::write_line(out, 0, 0, Err(Refusal::Settings));
    let reply = books::new(0, 0, 0, 0);
    let ledger = reply.ledger;
    Progress {
        ledger,
        pos: input.len(),
        count: 0,
        written: n,
    }
}

// Carries out steps while there are more and `out` has room for the longest text of one.
pub fn advance(
    progress: Progress,
    memo: &mut [u8],
    journal: &mut [u8],
    numbers: &mut [u16],
    sets: &mut [u64],
    records: &mut [u16],
    input: &[u8],
    out: &mut [u8],
) -> Progress
    requires { Going input.now progress journal.old numbers.old sets.old records.old memo.old }
    ensures { Advanced input.now progress journal.old out.old result
        journal.new numbers.new sets.new records.new memo.new out.new }
{
    let ledger = progress.ledger;
    let c = progress::cursor_at(progress.pos, progress.count, 0);
    let turned = going::carry_on(
        ledger, c, None, EVERY, memo, journal, numbers, sets, records, input, out,
    );
    turned.progress
}

// Carries out the next step alone, and writes its text after what the progress says is written. What is kept of kind 13 is handed on from one step to the
// next; before the first nothing is.
pub fn turn(
    progress: Progress,
    named: Option<JobSet>,
    memo: &mut [u8],
    journal: &mut [u8],
    numbers: &mut [u16],
    sets: &mut [u64],
    records: &mut [u16],
    input: &[u8],
    out: &mut [u8],
) -> Turned
    requires { Going input.now progress journal.old numbers.old sets.old records.old memo.old
        × Holds progress.ledger journal.old named
        × (progress.pos < length input.now)
        × (progress.written + longest_text ≤ length out.old) }
    ensures { TurnedOnce input.now progress journal.old out.old result
        journal.new numbers.new sets.new records.new memo.new out.new }
{
    let ledger = progress.ledger;
    let c = progress::cursor_at(progress.pos, progress.count, progress.written);
    let last = progress.count + 1;
    going::carry_on(
        ledger, c, named, last, memo, journal, numbers, sets, records, input, out,
    )
}
