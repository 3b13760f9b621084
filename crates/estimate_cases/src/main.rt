// Tightens a table of estimates and then every small one of two shapes, and prints a line for each: the two figures of the answer, then the ranges
// of the eight entries. Document 02 (M-110) decides what they must be; `stdout` holds them, and `reference` finds them by trying all choices.
#![tactic(auto)]

mod cases;

use ranges::{Estimate, Range};
use std::io;

// VAA001L6 in entry 0, VAB001L6 in entry 1 and so on, in as many entries of its half as are used.
pub(crate) fn label(entry: u8, used: u8) -> u64 {
    if entry % 4 < used {
        return 3912556259315892566 + 65536 * (entry as u64);
    }
    0
}

pub(crate) fn labels(inputs: u8, outputs: u8) -> [u64; 8] {
    [
        label(0, inputs),
        label(1, inputs),
        label(2, inputs),
        label(3, inputs),
        label(4, outputs),
        label(5, outputs),
        label(6, outputs),
        label(7, outputs),
    ]
}

pub(crate) fn to(lowest: u32, highest: u32) -> Range {
    Range { lowest, highest }
}

pub(crate) fn migration(inputs: u8, outputs: u8, ranges: [Range; 8], trimmed: u32) -> Estimate {
    Estimate {
        kind: 1,
        drive: 6,
        inputs,
        outputs,
        labels: labels(inputs, outputs),
        ranges,
        trimmed,
    }
}

fn say_range(rt: &HostRuntime, range: Range) -> io::Result<()> {
    let lowest = range.lowest;
    let highest = range.highest;
    print!(rt; " {lowest}-{highest}")
}

fn say_ranges(rt: &HostRuntime, ranges: [Range; 8]) -> io::Result<()> {
    for i in 0..8 {
        say_range(rt, ranges[i])?;
    }
    Ok(())
}

pub(crate) fn tell(rt: &HostRuntime, e: Estimate) -> io::Result<()> {
    let told = estimates::tighten(e);
    let number = outcome::number(told.outcome);
    let value = outcome::value(told.outcome);
    print!(rt; "{number} {value}")?;
    say_ranges(rt, told.ranges)?;
    println!(rt)
}

// One of eight ranges, by an octal digit: from 1 or 2 to 1, 2, 3 or 4.
fn small(digit: u32) -> Range {
    to(1 + digit % 2, 1 + digit / 2 % 4)
}

// Three ranges by three digits and what is trimmed by a fourth: one input and two outputs, then two inputs and one output.
fn pair(rt: &HostRuntime, k: u32) -> io::Result<()> {
    let z = to(0, 0);
    let a = small(k % 8);
    let b = small(k / 8 % 8);
    let c = small(k / 64 % 8);
    let trimmed = k / 512 % 2;
    tell(rt, migration(1, 2, [a, z, z, z, b, c, z, z], trimmed))?;
    tell(rt, migration(2, 1, [a, b, z, z, c, z, z, z], trimmed))
}

fn main(rt: HostRuntime) -> io::Result<()> {
    cases::run(&rt)?;
    for k in 0..1024 {
        pair(&rt, k)?;
    }
    Ok(())
}
