// The lines of the input tapes of all finished jobs, in the release list.
#![tactic(auto)]

ghost use Rattle.std.specs.Prelude.{◌≡◌, ◌*◌, ◌+◌, ◌<◌, ◌≤◌, length};
ghost use Rattle.codec.specs.Codec.{place_of};
ghost use Rattle.journal.specs.Journal.{Booked, job_at};
ghost use Rattle.consequences.specs.Freed.{freed_tapes};
ghost use Rattle.ledger.specs.State.{version_of};
ghost use Rattle.release_jobs.specs.Freeing.{freed_with};
ghost use Rattle.release_lines.specs.Tapes.{Listed, longest_tape};

use federation::Settings;
use ledger::Ledger;
use release_lines::Cursor;
use vaults::Votes;

// The inputs of job k, where its votes finish it.
fn list_job(
    out: &mut [u8],
    cursor: Cursor,
    settings: Settings,
    votes: Votes,
    journal: &[u8],
    booked: usize,
    k: usize,
) -> Cursor
    requires { (k < 128) × Booked settings.version journal.now booked k × (cursor.count < 999000)
        × (cursor.at + 4 * longest_tape ≤ length out.old) }
    ensures { Listed out.old cursor (freed_with settings votes (job_at settings.version journal.now booked k) k)
        out.new result }
{
    if settings.is_quorum(votes.acknowledgements) {
        let version = settings.version;
        let job = records::read(version, journal::lookup(version, journal, booked, k));
        release_lines::list_inputs(out, cursor, job, k as u32)
    } else {
        cursor
    }
}

// The inputs of all finished jobs, by job and then by entry.
pub fn list_jobs(out: &mut [u8], ledger: Ledger, journal: &[u8]) -> Cursor
    requires { (ledger.booked ≤ 128) × (place_of (version_of ledger) ledger.booked ≤ length journal.now) × (12800 ≤ length out.old) }
    ensures { Listed out.old (record { at = 0; count = 0 })
        (freed_tapes ledger (job_at (version_of ledger) journal.now ledger.booked)) out.new result × (result.at ≤ 12800) × (result.count ≤ 512) }
{
    let mut cursor = Cursor { at: 0, count: 0 };
    for k in 0..ledger.booked {
        cursor = list_job(
            out,
            cursor,
            ledger.settings,
            ledger.votes[k],
            journal,
            ledger.booked,
            k,
        );
    }
    cursor
}
