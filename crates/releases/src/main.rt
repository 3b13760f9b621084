// Reads a run file from standard input, carries it out, and prints its release list: the tapes that are free to be overwritten.
#![tactic(auto)]

use std::io;
use std::io::Print;

fn list(rt: &HostRuntime, input: &[u8]) -> io::Result<()> {
    let mut out = [0u8; release_list::ROOM];
    let written = release_file::releases(input, &mut out);
    rt.write_all(parts::front(&out, written))
}

fn main(rt: HostRuntime) -> io::Result<()> {
    let mut input = header::input_buffer();
    let n = streams::read_full(&mut rt.stdin(), &mut input)?;
    list(&rt, &input[..n])
}
