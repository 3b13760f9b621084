// Kind 1: where a proposed record goes. The index is that of the booked records that lie inside: the operations make it, and the run keeps it.
#![tactic(auto)]

ghost use Rattle.std.specs.Prelude.{◌≡◌, ◌≤◌};
ghost use Rattle.codec.specs.Codec.{job_of};
ghost use Rattle.ledger.specs.Decisions.{placing, proposal, settling};
ghost use Rattle.ledger.specs.Given.{Searchable};

use ledger::{Change, Decision};
use outcome::{Outcome, Refusal, Verdict};
use record::Job;

// Where a record goes that passes checks 6 to 9: to its booked equal, or after the booked records where there is room. A helper: the
// counts are a ledger's.
fn place(equal: usize, inside: usize, booked: usize, room: bool) -> Decision
    requires { (booked ≤ 128) × (inside ≤ booked) }
    ensures { result ≡ placing equal inside booked room }
{
    if equal < inside {
        return decisions::answer(equal as u32);
    }
    if room {
        return Decision {
            outcome: Ok(booked as u32),
            change: Change::Book,
        };
    }
    decisions::refuse(Refusal::Full)
}

// A record that passes checks 6 to 9, which says `job`.
fn settle(
    records: &[u16],
    version: u16,
    journal: &[u8],
    booked: usize,
    bytes: &[u8],
    job: Job,
) -> Decision
    requires { (job ≡ job_of bytes.now) × Searchable version journal.now booked records.now }
    ensures { result ≡ settling version journal.now booked bytes.now }
{
    let inside = journal::inside(version, journal, booked);
    let equal = index::find(records, version, journal, bytes, job, inside);
    place(
        equal,
        inside,
        booked,
        journal::has_room(version, journal, booked),
    )
}

pub fn propose(
    records: &[u16],
    version: u16,
    journal: &[u8],
    booked: usize,
    bytes: &[u8],
) -> Decision
    requires { Searchable version journal.now booked records.now }
    ensures { result ≡ proposal version journal.now booked bytes.now }
{
    if bytes.len() != codec::record_size(version) {
        return decisions::refuse(Refusal::Malformed);
    }
    let job = records::read(version, bytes);
    let verdict = examination::check(job);
    match verdict {
        Ok(()) => settle(records, version, journal, booked, bytes, job),
        Err(why) => decisions::refuse(why),
    }
}
