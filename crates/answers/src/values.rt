// What a value means, a job's state, and sets.
ghost use Rattle.std.specs.Prelude.{◌+◌, ◌≤◌, length};
ghost use Rattle.answers.specs.Room.{answer_long, answer_room};
ghost use Rattle.explanations.specs.Answers.{done_text, figure, names};
ghost use Rattle.explanations.specs.Words.{meaning, status};
ghost use Rattle.digits.specs.Digits.{Put};

use job_sets::JobSet;

// The rows of `put_meaning` one after the other, by the kinds; those of 0 and 6 are empty.
const MEANINGS: [u8; 138] = *b"\
    job \
    signatures \
    acknowledgements \
    signatures \
    acknowledgements \
    chance in thousandths \
    generations \
    jobs seen \
    signatures \
    jobs \
    signatures \
    vaults ";

// Where each row starts, in bytes from the first, and at last where they end.
const MEANING_STARTS: [u16; 15] = [0, 0, 4, 15, 32, 43, 60, 60, 82, 94, 104, 115, 120, 131, 138];

// What stands before the value of a step of a kind.
fn put_meaning(out: &mut [u8], at: usize, kind: u8) -> usize
    requires { at + 32 ≤ length out.old }
    ensures { Put out.old at (meaning kind) out.new result × (result ≤ at + 32) }
{
    words::put(
        out,
        at,
        words::row_of(&MEANINGS, &MEANING_STARTS, kind as usize),
    )
}

// The rows of `put_status`, and where they start.
const STATES: [u8; 21] = *b"\
    open\
    certified\
    finished";

const STATE_STARTS: [u16; 4] = [0, 4, 13, 21];

// The state of a job.
pub fn put_status(out: &mut [u8], at: usize, value: u32) -> usize
    requires { at + 9 ≤ length out.old }
    ensures { Put out.old at (status value) out.new result × (result ≤ at + 9) }
{
    words::put(
        out,
        at,
        words::row_of(&STATES, &STATE_STARTS, value as usize),
    )
}

// The members of a set with commas between, or `none`.
pub fn put_names(out: &mut [u8], at: usize, set: JobSet) -> usize
    requires { at + 1412 ≤ length out.old }
    ensures { Put out.old at (names set) out.new result × (result ≤ at + 1412) }
{
    let mut end = at;
    let mut first = true;
    for i in 0..128 {
        if set.has(i as usize) {
            end = printing::put_member(out, end, first, i);
            first = false;
        }
    }
    if first {
        return words::put(out, end, b"none");
    }
    end
}

// The value of a step that was carried out.
#[tactic(auto, unfolding(explanations::specs::Answers::figure))]
fn put_figure(out: &mut [u8], at: usize, kind: u8, value: u32, members: JobSet) -> usize
    requires { at + 1412 ≤ length out.old }
    ensures { Put out.old at (figure kind value members) out.new result × (result ≤ at + 1412) }
{
    match kind {
        6 => put_status(out, at, value),
        11 | 13 => put_names(out, at, members),
        _ => digits::write_number(out, at, value),
    }
}

// What a step that was carried out answers: the value, after what it means.
pub(crate) fn put_done(out: &mut [u8], at: usize, kind: u8, value: u32, members: JobSet) -> usize
    requires { at + answer_room ≤ length out.old }
    ensures { Put out.old at (done_text kind value members) out.new result × (result ≤ at + answer_long) }
{
    let end = put_meaning(out, at, kind);
    put_figure(out, end, kind, value, members)
}
