// A step explained: its number, its text and its answer.
#![tactic(auto)]

ghost use Rattle.std.specs.Prelude.{◌≡◌, ◌+◌, ◌<◌, ◌≤◌, length};
ghost use Rattle.answers.specs.Room.{answer_long, answer_room};
ghost use Rattle.explanations.specs.Explained.{answer_at, said_at, step_text};
ghost use Rattle.federation.specs.Federation.{latest, threshold_of};
ghost use Rattle.runfile.specs.Run.{longest};
ghost use Rattle.telling.specs.Room.{line_long, line_room, step_long, step_room};
ghost use Rattle.digits.specs.Digits.{Put};

use federation::Settings;
use job_sets::JobSet;
use outcome::Outcome;

// A buffer of this size takes the explanation of any step, and any job's line.
pub const PIECE: usize = 8192;

// The text of the step at `pos`, behind a space; nothing of one that can't be read.
fn put_said(version: u16, input: &[u8], pos: usize, out: &mut [u8], at: usize) -> usize
    requires { (pos < length input.now) × (length input.now ≤ longest) × (1 ≤ version) × (version ≤ latest)
        × (at + line_room ≤ length out.old) }
    ensures { Put out.old at (said_at version input.now pos) out.new result × (result ≤ at + line_long) }
{
    let step = reading::step_at(version, input, pos, 0);
    let kind = step.kind;
    if kind_table::is_unknown(kind) {
        return at;
    }
    let end = words::put(out, at, b" ");
    disassembly::put_step(version, disassembly::part(input, pos, step.end), out, end)
}

fn quorum(settings: Settings) -> u8
    ensures { result ≡ threshold_of settings }
{
    settings.threshold() as u8
}

// The answer to the step at `pos`, by its own record or by that of the job which it names.
fn put_answer(
    settings: Settings,
    journal: &[u8],
    booked: usize,
    input: &[u8],
    pos: usize,
    outcome: Outcome,
    members: JobSet,
    out: &mut [u8],
    at: usize,
) -> usize
    requires { (pos ≤ longest) × (at + answer_room ≤ length out.old) }
    ensures { Put out.old at
        (answer_at settings journal.now booked input.now pos outcome members) out.new result
        × (result ≤ at + answer_long) }
{
    let kind = fields::byte_at(input, pos);
    let threshold = quorum(settings);
    if kind == 1 {
        let own = parts::from(input, pos + 1);
        return answers::put_answer(out, at, kind, outcome, members, threshold, own);
    }
    let job = fields::byte_at(input, pos + 2) as usize;
    let named = journal::lookup(settings.version, journal, booked, job);
    answers::put_answer(out, at, kind, outcome, members, threshold, named)
}

// The explanation of the step at `pos`, which has the number and was answered so, at the front of `out`. A part of the run's explanation.
pub fn put_step(
    number: u32,
    settings: Settings,
    journal: &[u8],
    booked: usize,
    input: &[u8],
    pos: usize,
    outcome: Outcome,
    members: JobSet,
    out: &mut [u8],
) -> usize
    requires { (pos < length input.now) × (length input.now ≤ longest) × (1 ≤ settings.version) × (settings.version ≤ latest)
        × (step_room ≤ length out.old) }
    ensures { Put out.old 0
        (step_text number settings journal.now booked input.now pos outcome members) out.new result
        × (result ≤ step_long) }
{
    let a = digits::write_number(out, 0, number);
    let b = put_said(settings.version, input, pos, out, a);
    let c = words::put(out, b, b": ");
    let d = put_answer(
        settings, journal, booked, input, pos, outcome, members, out, c,
    );
    words::put(out, d, b"\n")
}
