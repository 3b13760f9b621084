// Reading a record and writing one.
#![tactic(auto)]

ghost use Rattle.std.specs.Prelude.{◌≡◌, ◌≤◌, length, take};
ghost use Rattle.std.proofs.lemmas.List.Edits.{sets};
ghost use Rattle.codec.specs.Codec.{job_of, front_job, body_of, fits_record, record_size, written};

use codec::{
    BODY, ENTRY, HEAD, byte_at, entry_at, number_at, put_entry, put_number, record_size,
    says_trimmed,
};
use record::{Entry, Job};

// The job of a record's own bytes; bytes past the end count as 0.
fn said(bytes: &[u8]) -> Job
    ensures { result ≡ job_of bytes.now }
{
    let mut entries = [Entry {
        label: 0,
        frames: 0,
    }; 8];
    for i in 0..8 {
        entries[i] = entry_at(bytes, HEAD + ENTRY * i);
    }
    Job {
        kind: byte_at(bytes, 0),
        drive: byte_at(bytes, 1),
        inputs: byte_at(bytes, 2),
        outputs: byte_at(bytes, 3),
        entries,
        trimmed: number_at(bytes, BODY, 4) as u32,
    }
}

// The bytes of the record at the front.
fn front(version: u16, bytes: &[u8]) -> &[u8]
    ensures { result.now ≡ take (record_size version) bytes.now }
{
    &bytes[..bytes.len().min(record_size(version))]
}

// The job of the record at the front; bytes past the end count as 0, and what follows the record is not read.
pub fn read(version: u16, bytes: &[u8]) -> Job
    ensures { result ≡ front_job version bytes.now }
{
    said(front(version, bytes))
}

// Puts at the front what records of both versions have.
fn put_body(job: Job, out: &mut [u8])
    requires { 100 ≤ length out.old }
    ensures { out.new ≡ sets out.old 0 (body_of job) }
{
    out[0] = job.kind;
    out[1] = job.drive;
    out[2] = job.inputs;
    out[3] = job.outputs;
    for i in 0..8 {
        put_entry(out, HEAD + ENTRY * i, job.entries[i]);
    }
}

// Puts the job's record at the front of out. An out that is too short is left as it was, and the answer is false.
pub fn write(version: u16, job: Job, out: &mut [u8]) -> bool
    ensures { (result ≡ fits_record version out.old) × (out.new ≡ written version job out.old) }
{
    if out.len() < record_size(version) {
        return false;
    }
    put_body(job, out);
    if says_trimmed(version) {
        put_number(out, BODY, 4, job.trimmed as u64);
    }
    true
}
