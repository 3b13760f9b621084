// The release list: the tapes that are free to be overwritten, as text.
#![tactic(auto)]

ghost use Rattle.std.specs.Prelude.{◌≡◌, ◌≤◌, length};
ghost use Rattle.codec.specs.Codec.{place_of};
ghost use Rattle.ledger.specs.State.{version_of};
ghost use Rattle.release_list.specs.Listing.{Released, list_text, tapes_freed};
ghost use Rattle.digits.specs.Digits.{Put};

use ledger::Ledger;
use outcome::{Outcome, Verdict};
use release_lines::Cursor;

// A buffer for any list: of 128 jobs with four inputs each, and the line with their number.
pub const ROOM: usize = 12805;

// The number of tapes, or why there is no list; and how much of the buffer the list takes.
#[derive(Clone, Copy)]
pub struct Releases {
    pub outcome: Outcome,
    pub written: usize,
}

fn write_list(out: &mut [u8], ledger: Ledger, journal: &[u8]) -> Cursor
    requires { (ledger.booked ≤ 128) × (place_of (version_of ledger) ledger.booked ≤ length journal.now) × (12805 ≤ length out.old) }
    ensures { Put out.old 0 (list_text (tapes_freed ledger journal.now)) out.new result.at
        × (result.at ≤ 12805) × (result.count ≡ length (tapes_freed ledger journal.now)) }
{
    let end = release_jobs::list_jobs(out, ledger, journal);
    let at = digits::write_some(out, end.at, end.count);
    let at = digits::write_byte(out, at, b'\n');
    Cursor {
        at,
        count: end.count,
    }
}

// The list of any ledger and any journal: checks 1 and 4, then a line for each input tape of each finished job, and a line with their number.
pub fn list(ledger: Ledger, journal: &[u8], out: &mut [u8; ROOM]) -> Releases
    ensures { Released ledger journal.now out.old out.new result }
{
    let gate = books::whole_gate(ledger, journal);
    match gate {
        Ok(()) => {
            let end = write_list(out, ledger, journal);
            Releases {
                outcome: Ok(end.count),
                written: end.at,
            }
        }
        Err(why) => Releases {
            outcome: Err(why),
            written: 0,
        },
    }
}
