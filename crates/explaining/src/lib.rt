// A run explained in pieces, a step at a time.
#![tactic(auto)]

ghost use Rattle.std.specs.Prelude.{◌≡◌, ◌<◌, ◌≤◌, length};
ghost use Rattle.explaining.specs.Told.{Told, at_front, said_by};
ghost use Rattle.progress.specs.Pieces.{Going};
ghost use Rattle.progress.specs.Turns.{Holds};
ghost use Rattle.telling.specs.Room.{step_room};

use job_sets::JobSet;
use progress::{Progress, Turned};

fn at_front(p: Progress, written: usize) -> Progress
    ensures { result ≡ at_front p written }
{
    let ledger = p.ledger;
    let pos = p.pos;
    let count = p.count;
    Progress {
        ledger,
        pos,
        count,
        written,
    }
}

fn said_by(turned: Turned, written: usize) -> Turned
    ensures { result ≡ said_by turned written }
{
    let p = turned.progress;
    let progress = at_front(p, written);
    let outcome = turned.outcome;
    let named = turned.named;
    let members = turned.members;
    Turned {
        progress,
        outcome,
        members,
        named,
    }
}

// Carries out the next step alone, and explains it at the front of `out`. A part of a program that keeps a run.
pub fn next(
    progress: Progress,
    named: Option<JobSet>,
    memo: &mut [u8],
    journal: &mut [u8],
    numbers: &mut [u16],
    sets: &mut [u64],
    records: &mut [u16],
    input: &[u8],
    out: &mut [u8],
) -> Turned
    requires { Going input.now progress journal.old numbers.old sets.old records.old memo.old
        × Holds progress.ledger journal.old named
        × (progress.pos < length input.now)
        × (step_room ≤ length out.old) }
    ensures { Told input.now progress journal.old out.old result
        journal.new numbers.new sets.new records.new memo.new out.new }
{
    let pos = progress.pos;
    let mut line = [0u8; text::LONGEST];
    let start = at_front(progress, 0);
    let t = run::turn(
        start, named, memo, journal, numbers, sets, records, input, &mut line,
    );
    let p = t.progress;
    let ledger = p.ledger;
    let settings = ledger.settings;
    let outcome = t.outcome;
    let members = t.members;
    let written = telling::put_step(
        p.count,
        settings,
        journal,
        ledger.booked,
        input,
        pos,
        outcome,
        members,
        out,
    );
    said_by(t, written)
}
