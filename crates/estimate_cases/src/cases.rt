// The table.
use crate::{label, labels, migration, tell, to};
use ranges::{Estimate, Range};
use std::io;

const MOST: u32 = 4294967295;

fn accession(ranges: [Range; 8], trimmed: u32) -> Estimate {
    Estimate {
        kind: 0,
        drive: 6,
        inputs: 0,
        outputs: 2,
        labels: labels(0, 2),
        ranges,
        trimmed,
    }
}

// One input and two outputs.
fn one_to_two(
    rt: &HostRuntime,
    input: Range,
    first: Range,
    second: Range,
    trimmed: u32,
) -> io::Result<()> {
    let z = to(0, 0);
    tell(
        rt,
        migration(1, 2, [input, z, z, z, first, second, z, z], trimmed),
    )
}

// One input and one output.
fn one_to_one(rt: &HostRuntime, input: Range, output: Range, trimmed: u32) -> io::Result<()> {
    let z = to(0, 0);
    tell(
        rt,
        migration(1, 1, [input, z, z, z, output, z, z, z], trimmed),
    )
}

// Both sides are narrowed, one of them, or neither; with trimmed frames too.
fn balancing(rt: &HostRuntime) -> io::Result<()> {
    one_to_two(rt, to(1000, 1000), to(100, 900), to(300, 400), 0)?;
    one_to_two(rt, to(1000, 1000), to(100, 900), to(300, 400), 50)?;
    one_to_two(rt, to(1, 5000), to(100, 900), to(300, 400), 0)?;
    one_to_two(rt, to(1, 5000), to(100, 900), to(300, 400), 4000)?;
    one_to_one(rt, to(10, 20), to(1, 5), 18)?;
    one_to_one(rt, to(10, 20), to(15, 30), 0)?;
    one_to_one(rt, to(7, 7), to(7, 7), 0)
}

// No choice balances, by one frame; a reversed range comes first, whether something balances or not.
fn refused(rt: &HostRuntime) -> io::Result<()> {
    one_to_one(rt, to(10, 10), to(11, 20), 0)?;
    one_to_one(rt, to(10, 10), to(1, 9), 0)?;
    one_to_one(rt, to(10, 10), to(1, 9), 1)?;
    one_to_one(rt, to(1, 10), to(1, 10), 10)?;
    one_to_one(rt, to(1, 10), to(5, 4), 0)?;
    one_to_one(rt, to(100, 100), to(5, 4), 0)?;
    one_to_one(rt, to(6, 5), to(5, 4), 0)?;
    one_to_two(rt, to(1, 10), to(4, 4), to(9, 8), 0)
}

// Check 6: unused entries, used ones with no frames, what an accession trims, the head.
fn malformed(rt: &HostRuntime) -> io::Result<()> {
    let z = to(0, 0);
    tell(
        rt,
        migration(1, 1, [to(5, 5), to(0, 1), z, z, to(5, 5), z, z, z], 0),
    )?;
    tell(
        rt,
        migration(1, 1, [to(5, 5), z, z, z, to(5, 4), z, z, to(0, 1)], 0),
    )?;
    tell(
        rt,
        migration(1, 1, [to(5, 5), to(1, 1), z, z, to(5, 5), z, z, z], 0),
    )?;
    one_to_one(rt, to(5, 5), to(0, 5), 0)?;
    tell(rt, migration(0, 1, [z, z, z, z, to(5, 5), z, z, z], 0))?;
    tell(
        rt,
        migration(5, 1, [to(5, 5), z, z, z, to(5, 5), z, z, z], 0),
    )?;
    tell(rt, accession([z, z, z, z, to(5, 6), to(7, 8), z, z], 1))
}

// An accession keeps its ranges, and balances whatever they are; they may be reversed.
fn accessions(rt: &HostRuntime) -> io::Result<()> {
    let z = to(0, 0);
    tell(rt, accession([z, z, z, z, to(5, 6), to(7, 900), z, z], 0))?;
    tell(
        rt,
        accession([z, z, z, z, to(1, MOST), to(MOST, MOST), z, z], 0),
    )?;
    tell(rt, accession([z, z, z, z, to(5, 6), to(7, 6), z, z], 0))
}

// The second input's range is reversed. A third output with that input's label comes before it, and so does a drive that can't read an input.
fn labelled(rt: &HostRuntime, drive: u8, again: u64) -> io::Result<()> {
    let z = to(0, 0);
    let a = label(0, 4);
    let b = label(1, 4);
    let c = label(4, 4);
    let d = label(5, 4);
    tell(
        rt,
        Estimate {
            kind: 1,
            drive,
            inputs: 2,
            outputs: 3,
            labels: [a, b, 0, 0, c, d, again, 0],
            ranges: [to(5, 9), to(5, 4), z, z, to(1, 9), to(1, 9), to(1, 9), z],
            trimmed: 0,
        },
    )
}

// Four by four, at the largest counts.
fn largest(rt: &HostRuntime) -> io::Result<()> {
    let m = to(MOST, MOST);
    let any = to(1, MOST);
    tell(rt, migration(4, 4, [m, m, m, m, m, m, m, m], 0))?;
    tell(rt, migration(4, 4, [m, m, m, m, m, m, m, m], MOST))?;
    tell(rt, migration(4, 4, [m, m, m, m, m, m, m, any], 1))?;
    tell(rt, migration(4, 4, [m, m, m, m, m, m, any, any], MOST))?;
    tell(rt, migration(4, 4, [any, any, any, any, m, m, m, m], 0))?;
    tell(
        rt,
        migration(4, 4, [any, any, any, any, any, any, any, any], MOST),
    )?;
    tell(
        rt,
        migration(4, 4, [any, any, any, any, m, m, m, to(1, 1)], MOST),
    )
}

pub(crate) fn run(rt: &HostRuntime) -> io::Result<()> {
    balancing(rt)?;
    refused(rt)?;
    malformed(rt)?;
    accessions(rt)?;
    labelled(rt, 6, label(1, 4))?;
    labelled(rt, 5, label(6, 4))?;
    labelled(rt, 6, label(6, 4))?;
    largest(rt)
}
