// The lines of the input tapes of one job, in the release list.
#![tactic(auto)]

ghost use Rattle.std.specs.Prelude.{◌*◌, ◌+◌, ◌<◌, ◌≤◌, length};
ghost use Rattle.codec.specs.Codec.{le_bytes};
ghost use Rattle.conflicts.specs.Tapes.{used_from};
ghost use Rattle.digits.specs.Digits.{Put};
ghost use Rattle.release_lines.specs.Tapes.{Listed, longest_tape, of_job, tape_line};

use record::{Entry, Job};

// Where the next line goes, and how many tapes were listed.
#[derive(Clone, Copy)]
pub struct Cursor {
    pub at: usize,
    pub count: u32,
}

fn write_label(out: &mut [u8], at: usize, label: u64) -> usize
    requires { at + 8 ≤ length out.old }
    ensures { Put out.old at (le_bytes 8 label) out.new result × (result ≤ at + 8) }
{
    codec::put_number(out, at, 8, label);
    at + 8
}

fn write_tape(out: &mut [u8], at: usize, tape: Entry, job: u32) -> usize
    requires { (job < 10000) × (at + longest_tape ≤ length out.old) }
    ensures { Put out.old at (tape_line (record { tape = tape; job = job })) out.new result × (result ≤ at + longest_tape) }
{
    let a = write_label(out, at, tape.label);
    let b = digits::write_byte(out, a, b' ');
    let c = digits::write_number(out, b, tape.frames);
    let d = digits::write_byte(out, c, b' ');
    let e = digits::write_some(out, d, job);
    digits::write_byte(out, e, b'\n')
}

// Entry e of a job, where it is used.
fn list_entry(out: &mut [u8], cursor: Cursor, job: Job, number: u32, e: usize) -> Cursor
    requires { (number < 10000) × (e < 8) × (cursor.count < 1000000) × (cursor.at + longest_tape ≤ length out.old) }
    ensures { Listed out.old cursor (of_job number (used_from job e 1)) out.new result }
{
    if record::used(job, e) {
        let at = write_tape(out, cursor.at, job.entries[e], number);
        return Cursor {
            at,
            count: cursor.count + 1,
        };
    }
    cursor
}

// The inputs of a job.
pub fn list_inputs(out: &mut [u8], cursor: Cursor, job: Job, number: u32) -> Cursor
    requires { (number < 10000) × (cursor.count < 999000) × (cursor.at + 4 * longest_tape ≤ length out.old) }
    ensures { Listed out.old cursor (of_job number (used_from job 0 4)) out.new result }
{
    let mut now = cursor;
    for e in 0..4 {
        now = list_entry(out, now, job, number, e);
    }
    now
}
