// What is printed for a step: its line, in decimal, and the numbers that it lists.
#![tactic(auto)]

mod listing;

ghost use Rattle.std.specs.Prelude.{◌≡◌, ◌+◌, ◌<◌, ◌≤◌, length};
ghost use Rattle.digits.specs.Digits.{Put};
ghost use Rattle.text.specs.Text.{line_for, line_of, longest_line, longest_text, text_for};

use job_sets::JobSet;
use outcome::Outcome;

// No text of a step has more bytes: a line, and a list of 128 numbers.
pub const LONGEST: usize = 663;

fn write_figures(out: &mut [u8], at: usize, step: u32, number: u32, value: u32) -> usize
    requires { (step < 1000000) × (number < 256) × (at + longest_line ≤ length out.old) }
    ensures { Put out.old at (line_of step number value) out.new result × (result ≤ at + longest_line) }
{
    let a = digits::write_many(out, at, step);
    let b = digits::write_byte(out, a, b' ');
    let c = digits::write_some(out, b, number);
    let d = digits::write_byte(out, c, b' ');
    let e = digits::write_number(out, d, value);
    digits::write_byte(out, e, b'\n')
}

// The line of a step, where there is room for the longest. A part of the run, which sees to the room and has no step of seven digits.
pub fn write_line(out: &mut [u8], at: usize, step: u32, outcome: Outcome) -> usize
    requires { (step < 1000000) × (at + longest_line ≤ length out.old) }
    ensures { Put out.old at (line_for step outcome) out.new result × (result ≤ at + longest_line) }
{
    write_figures(
        out,
        at,
        step,
        u32::from(outcome::number(outcome)),
        outcome::value(outcome),
    )
}

// The text of a step: its line, and the numbers that it lists.
pub fn write_text(out: &mut [u8], at: usize, step: u32, outcome: Outcome, members: JobSet) -> usize
    requires { (step < 1000000) × (at + longest_text ≤ length out.old) }
    ensures { Put out.old at (text_for step outcome members) out.new result × (result ≤ at + longest_text) }
{
    let end = write_line(out, at, step, outcome);
    listing::write_list(out, end, members)
}
