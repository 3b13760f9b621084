// Reads a run file from standard input and prints its text, a piece at a time. What is read and what is printed is the library's choice.
#![tactic(auto)]

use std::io;
use std::io::Print;

fn carry_out(rt: &HostRuntime, input: &[u8]) -> io::Result<()> {
    let mut memo = [0u8; journal::CAPACITY];
    let mut journal = [0u8; run::JOURNAL];
    let mut numbers = [0u16; index::NUMBERS];
    let mut sets = [0u64; index::SETS];
    let mut records = [0u16; index::RECORDS];
    let mut out = [0u8; run::PIECE];
    let mut progress = run::start(input, &mut out);
    rt.write_all(parts::front(&out, progress.written))?;
    while progress.pos < input.len() {
        progress = run::advance(
            progress,
            &mut memo,
            &mut journal,
            &mut numbers,
            &mut sets,
            &mut records,
            input,
            &mut out,
        );
        rt.write_all(parts::front(&out, progress.written))?;
    }
    Ok(())
}

fn main(rt: HostRuntime) -> io::Result<()> {
    let mut input = header::input_buffer();
    let n = streams::read_full(&mut rt.stdin(), &mut input)?;
    carry_out(&rt, &input[..n])
}
