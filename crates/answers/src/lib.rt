// The answer to a step in words.
#![tactic(auto)]

mod reasons;
mod values;

ghost use Rattle.std.specs.Prelude.{◌++◌, ◌∷◌, [], ◌+◌, ◌≤◌, length};
ghost use Rattle.answers.specs.Room.{answer_long, answer_room};
ghost use Rattle.explanations.specs.Answers.{answer_text};
ghost use Rattle.explanations.specs.Words.{reason};
ghost use Rattle.digits.specs.Digits.{Put};

use job_sets::JobSet;
use outcome::Outcome;
pub use values::{put_names, put_status};

// The answer to a step of a kind; the bytes are those of the record that the step is about.
#[tactic(auto, unfolding(explanations::specs::Answers::answer_text))]
pub fn put_answer(
    out: &mut [u8],
    at: usize,
    kind: u8,
    outcome: Outcome,
    members: JobSet,
    threshold: u8,
    bytes: &[u8],
) -> usize
    requires { at + answer_room ≤ length out.old }
    ensures { Put out.old at (answer_text kind outcome members threshold bytes.now) out.new result
        × (result ≤ at + answer_long) }
{
    match outcome {
        Ok(value) => values::put_done(out, at, kind, value, members),
        Err(why) => reasons::put_refused(
            out,
            at,
            why.number(),
            why.value() as u32,
            threshold,
            bytes,
        ),
    }
}

// What is said of a file that check 1 turns back, at the front of `out`.
pub fn refuse(out: &mut [u8]) -> usize
    requires { answer_room ≤ length out.old }
    ensures { Put out.old 0 (reason 1 ++ (10 ∷ [])) out.new result × (result ≤ 129) }
{
    let end = reasons::put_reason(out, 1);
    words::put(out, end, b"\n")
}
