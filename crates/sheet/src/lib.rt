// The sheet: a line for each booked job.
#![tactic(auto)]

ghost use Rattle.std.specs.Prelude.{◌∷◌, [], ◌≡◌, ◌≤◌, length};
ghost use Rattle.std.specs.Int.Count.{ones};
ghost use Rattle.answers.specs.Room.{answer_long, answer_room};
ghost use Rattle.explanations.specs.Answers.{job_line, job_row, to_sign};
ghost use Rattle.ledger.specs.Decisions.{status_of};
ghost use Rattle.rows.specs.Writing.{text_by};
ghost use Rattle.digits.specs.Digits.{Put};
ghost use Rattle.sheet.specs.Listed.{Listed};

use federation::Settings;
use job_sets::JobSet;
use ledger::Ledger;
use outcome::Verdict;
use vaults::Votes;

fn put_job_row(out: &mut [u8], state: u32) -> usize
    requires { 128 ≤ length out.old }
    ensures { Put out.old 0 (job_row state) out.new result × (result ≤ 128) }
{
    let a = words::put(out, 0, b"job # ");
    let b = answers::put_status(out, a, state);
    words::put(
        out,
        b,
        b": signatures #, acknowledgements #, still to sign ",
    )
}

fn size(set: u16) -> u8
    ensures { result ≡ ones set }
{
    sets::vaults::size(set) as u8
}

// The state of a job is what kind 6 answers.
fn state_of(settings: Settings, votes: Votes) -> u32
    ensures { result ≡ status_of settings votes }
{
    let decision = decisions::show(Ok(()), settings, votes);
    outcome::value(decision.outcome)
}

// The vaults below n that are not among the signers.
#[tactic(auto, using(crate::proofs::Unsigned::sign_begun, crate::proofs::Unsigned::sign_pass, crate::proofs::Unsigned::sign_more, crate::proofs::Unsigned::sign_end))]
fn to_sign(n: u8, signers: u16) -> JobSet
    ensures { result ≡ to_sign n signers }
{
    let mut found = JobSet::empty();
    for v in 0..n {
        if !sets::vaults::has(signers, v) {
            found = found.with(usize::from(v));
        }
    }
    found
}

// A job's line up to the vaults that are still to sign.
fn put_state(out: &mut [u8], state: u32, job: u8, signed: u8, acknowledged: u8) -> usize
    requires { answer_room ≤ length out.old }
    ensures { Put out.old 0 (text_by (job_row state) (job ∷ signed ∷ acknowledged ∷ [])) out.new result × (result ≤ 128) }
{
    let mut buffer = [0u8; 128];
    let n = put_job_row(&mut buffer, state);
    let facts = [job, signed, acknowledged];
    printing::write_row(parts::front(&buffer, n), &facts, out, 0)
}

// A job's line and its end, at the front of `out`.
fn put_job(out: &mut [u8], settings: Settings, votes: Votes, job: u8) -> usize
    requires { answer_room ≤ length out.old }
    ensures { Put out.old 0 (job_line settings votes job) out.new result × (result ≤ answer_long) }
{
    let state = state_of(settings, votes);
    let signed = size(votes.signatures);
    let acknowledged = size(votes.acknowledgements);
    let waiting = to_sign(settings.n, votes.signatures);
    let a = put_state(out, state, job, signed, acknowledged);
    let b = answers::put_names(out, a, waiting);
    words::put(out, b, b"\n")
}

// The line of a job, at the front of `out`; nothing of a job that can't be.
pub fn job_line(ledger: Ledger, job: usize, out: &mut [u8]) -> usize
    requires { answer_room ≤ length out.old }
    ensures { Listed ledger job out.old out.new result }
{
    if job < 128 {
        let votes = ledger.votes[job];
        put_job(out, ledger.settings, votes, job as u8)
    } else {
        0
    }
}
