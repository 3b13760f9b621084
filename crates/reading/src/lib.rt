// A step as it stands in a run file: its kind, what it names, and where the next one stands.
#![tactic(auto)]

ghost use Rattle.std.specs.Prelude.{◌≡◌, ◌<◌, ◌≤◌, length};
ghost use Rattle.runfile.specs.Run.{longest};
ghost use Rattle.reading.specs.Reading.{Read, formed, unread};

use kind_table::{Form, Operation};
use runfile::Kind;

// A step: its number, the vault and the job that it names, 0 where it names none, the place of the history of the client that it names, where its body starts,
// and where the next step stands.
#[derive(Clone, Copy)]
pub struct Step {
    pub number: u32,
    pub kind: Kind,
    pub wide: bool,
    pub vault: u8,
    pub job: u8,
    pub place: usize,
    pub at: usize,
    pub end: usize,
}

// "Refusal 2 prints its line and ends": nothing is left to read.
fn unreadable(input: &[u8], number: u32, at: usize) -> Step
    ensures { result ≡ unread input.now number at }
{
    Step {
        number,
        kind: Kind::Unknown,
        wide: false,
        vault: 0,
        job: 0,
        place: 0,
        at,
        end: input.len(),
    }
}

fn named(
    kind: Kind,
    wide: bool,
    number: u32,
    vault: u8,
    job: u8,
    place: usize,
    at: usize,
    end: usize,
) -> Step
    ensures { result ≡ record { number = number; kind = kind; wide = wide; vault = vault; job = job; place = place; at = at; end = end } }
{
    Step {
        number,
        kind,
        wide,
        vault,
        job,
        place,
        at,
        end,
    }
}

// The step of an operation, whose body starts at `at` and ends at `end`.
fn formed_step(operation: Operation, input: &[u8], number: u32, at: usize, end: usize) -> Step
    requires { at ≤ longest }
    ensures { result ≡ formed operation.form operation input.now number at end }
{
    let kind = operation.kind;
    let wide = operation.wide;
    let form = operation.form;
    match form {
        Form::Bare => named(kind, wide, number, 0, 0, 0, at, end),
        Form::OfJob => {
            let job = fields::byte_at(input, at);
            named(kind, wide, number, 0, job, 0, at, end)
        }
        Form::OfVault => {
            let vault = fields::byte_at(input, at);
            let job = fields::byte_at(input, at + 1);
            named(kind, wide, number, vault, job, 0, at, end)
        }
        Form::OfClient => {
            let vault = fields::byte_at(input, at);
            let job = fields::byte_at(input, at + 1);
            let place = quota::place(vault, fields::byte_at(input, at + 2));
            named(kind, wide, number, vault, job, place, at, end)
        }
        Form::Unreadable => unreadable(input, number, at),
    }
}

// The step that stands at `pos`, with this number: nothing that can be read, where the kind is unknown or the body is cut short.
pub fn step_at(version: u16, input: &[u8], pos: usize, number: u32) -> Step
    requires { (pos < length input.now) × (length input.now ≤ longest) }
    ensures { Read version input.now pos number result }
{
    let operation = kind_table::operation_of(version, input[pos]);
    let at = pos + 1;
    let end = at + operation.size;
    if end <= input.len() {
        return formed_step(operation, input, number, at, end);
    }
    unreadable(input, number, at)
}
