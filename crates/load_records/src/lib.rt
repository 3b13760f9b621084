// The forty records of a test load (docs/LOADS.md).
#![tactic(auto)]

ghost use Rattle.std.specs.Prelude.{◌≡◌, ◌<◌};
ghost use Rattle.load.specs.Records.{accession, job_for, label_for, main_job, migration, rival_job, side_job, tape};

use record::{Entry, Job};

const NONE: Entry = Entry {
    label: 0,
    frames: 0,
};

// `TL`, a letter, `0`, two digits, `L` and the medium, the first character lowest.
fn label(letter: u8, job: u8, medium: u8) -> u64
    requires { medium < 100 }
    ensures { result ≡ label_for letter job medium }
{
    u64::from_le_bytes([
        b'T',
        b'L',
        letter,
        b'0',
        b'0' + job / 10,
        b'0' + job % 10,
        b'L',
        b'0' + medium,
    ])
}

fn tape(letter: u8, job: u8, medium: u8, frames: u32) -> Entry
    requires { medium < 100 }
    ensures { result ≡ tape letter job medium frames }
{
    Entry {
        label: label(letter, job, medium),
        frames,
    }
}

fn accession(drive: u8, outputs: u8, first: Entry, second: Entry) -> Job
    ensures { result ≡ accession drive outputs first second }
{
    Job {
        kind: 0,
        drive,
        inputs: 0,
        outputs,
        entries: [NONE, NONE, NONE, NONE, first, second, NONE, NONE],
        trimmed: 0,
    }
}

// As many tapes as were read are written.
fn migration(drive: u8, count: u8, from: Entry, second: Entry, to: Entry, other: Entry) -> Job
    ensures { result ≡ migration drive count from second to other }
{
    Job {
        kind: 1,
        drive,
        inputs: count,
        outputs: count,
        entries: [from, second, NONE, NONE, to, other, NONE, NONE],
        trimmed: 0,
    }
}

// The chain: an accession, then a migration a round, with f and g frames.
fn main_job(f: u32, g: u32, round: u8) -> Job
    requires { round < 26 }
    ensures { result ≡ main_job f g round }
{
    if round == 0 {
        return accession(5, 2, tape(b'A', 0, 5, f), tape(b'B', 0, 5, g));
    }
    let before = 10 * round - 10;
    migration(
        5 + round,
        2,
        tape(b'A', before, 4 + round, f),
        tape(b'B', before, 4 + round, g),
        tape(b'A', 10 * round, 5 + round, f),
        tape(b'B', 10 * round, 5 + round, g),
    )
}

// The rival makes a label that the main job makes, or retires an input of it.
fn rival_job(f: u32, round: u8) -> Job
    requires { round < 26 }
    ensures { result ≡ rival_job f round }
{
    if round == 0 {
        return accession(5, 2, tape(b'A', 1, 5, f), tape(b'A', 0, 5, f));
    }
    let from = tape(b'A', 10 * round - 10, 4 + round, f);
    migration(
        5 + round,
        1,
        from,
        NONE,
        tape(b'A', 10 * round + 1, 5 + round, f),
        NONE,
    )
}

fn side_job(job: u8) -> Job
    ensures { result ≡ side_job job }
{
    accession(
        5 + job % 5,
        1,
        tape(b'A', job, 5 + job % 5, 100 * (job as u32 + 1)),
        NONE,
    )
}

// Job number `job` of the load with this first draw.
pub fn job(first: u32, job: u8) -> Job
    ensures { result ≡ job_for first job }
{
    let f = first % 65536 + 1;
    let g = first / 65536 + 1;
    match job % 10 {
        0 => main_job(f, g, job / 10),
        1 => rival_job(f, job / 10),
        _ => side_job(job),
    }
}
