// Reads ten bytes from standard input, a seed, n and b, and writes their load to standard output (docs/LOADS.md).
#![tactic(auto)]

ghost use Rattle.std.specs.Prelude.{◌≤◌, length};

use std::io;
use std::io::Print;

fn print(rt: &HostRuntime, out: &[u8], written: usize) -> io::Result<()>
    requires { written ≤ length out.now }
{
    rt.write_all(&out[..written])
}

fn main(rt: HostRuntime) -> io::Result<()> {
    // one byte more than a request has, so that a longer input is seen to be longer
    let mut input = [0u8; 11];
    let n = streams::read_full(&mut rt.stdin(), &mut input)?;
    let mut out = [0u8; load_writer::ROOM];
    let written = load_writer::load(&input[..n], &mut out);
    print(&rt, &out, written)
}
