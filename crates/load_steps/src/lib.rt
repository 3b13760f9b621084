// How the steps of a load stand in a run file.
#![tactic(auto)]

ghost use Rattle.std.specs.Prelude.{◌∷◌, [], ◌≡◌, ◌+◌, ◌<◌, ◌≤◌, length};
ghost use Rattle.codec.specs.Codec.{bytes_of, le_bytes};
ghost use Rattle.load.specs.Records.{job_for};
ghost use Rattle.load.specs.Steps.{header_bytes, step_bytes};
ghost use Rattle.digits.specs.Digits.{Put};

use load::Step;

fn put_bytes(out: &mut [u8], at: usize, bytes: &[u8]) -> usize
    requires { at + length bytes.now ≤ length out.old }
    ensures { Put out.old at bytes.now out.new result × (result ≡ at + length bytes.now) }
{
    let end = at + bytes.len();
    out[at..end].copy_from_slice(bytes);
    end
}

// 16 bits, the low byte first.
fn put_word(out: &mut [u8], at: usize, word: u16) -> usize
    requires { at + 2 ≤ length out.old }
    ensures { Put out.old at (le_bytes 2 word) out.new result × (result ≡ at + 2) }
{
    put_bytes(out, at, &[(word % 256) as u8, (word / 256 % 256) as u8])
}

fn put_commit(out: &mut [u8], at: usize, vault: u8, job: u8, signers: u16) -> usize
    requires { at + 5 ≤ length out.old }
    ensures { Put out.old at (3 ∷ vault ∷ job ∷ le_bytes 2 signers) out.new result × (result ≡ at + 5) }
{
    let next = put_bytes(out, at, &[3, vault, job]);
    put_word(out, next, signers)
}

fn put_record(out: &mut [u8], at: usize, first: u32, job: u8) -> usize
    requires { at + 100 ≤ length out.old }
    ensures { Put out.old at (bytes_of 1 (job_for first job)) out.new result × (result ≡ at + 100) }
{
    let end = at + 100;
    records::write(1, load_records::job(first, job), &mut out[at..end]);
    end
}

fn put_proposal(out: &mut [u8], at: usize, first: u32, job: u8) -> usize
    requires { at + 101 ≤ length out.old }
    ensures { Put out.old at (1 ∷ bytes_of 1 (job_for first job)) out.new result × (result ≡ at + 101) }
{
    let next = put_bytes(out, at, &[1]);
    put_record(out, next, first, job)
}

// A kind byte and its body.
pub fn put(out: &mut [u8], at: usize, first: u32, step: Step) -> usize
    requires { at + 101 ≤ length out.old }
    ensures { Put out.old at (step_bytes first step) out.new result × (result ≤ at + 101) }
{
    match step {
        Step::Propose(job) => put_proposal(out, at, first, job),
        Step::Preflight(vault, job) => put_bytes(out, at, &[2, vault, job]),
        Step::Commit(vault, job, signers) => put_commit(out, at, vault, job, signers),
        Step::FaultySign(vault, job) => put_bytes(out, at, &[4, vault, job]),
        Step::FaultyAcknowledge(vault, job) => put_bytes(out, at, &[5, vault, job]),
        Step::Show(job) => put_bytes(out, at, &[6, job]),
        Step::Draw(absent) => put_bytes(out, at, &[7, absent]),
        Step::Generations(job) => put_bytes(out, at, &[8, job]),
    }
}

// The header of a version 1 run file.
pub fn put_header(out: &mut [u8], n: u8, b: u8, faulty: u16) -> usize
    requires { 9 ≤ length out.old }
    ensures { Put out.old 0 (header_bytes n b faulty) out.new result × (result ≡ 9) }
{
    let magic = put_bytes(out, 0, b"VLT");
    let version = put_word(out, magic, 1);
    let settings = put_bytes(out, version, &[n, b]);
    put_word(out, settings, faulty)
}
