// Reads a run file from standard input and writes it as text, of which `assemble` makes the same file. What is printed is the library's choice.
#![tactic(auto)]

use std::io;
use std::io::Print;

fn text_buffer() -> [u8; disassembly::TEXT] {
    [0; disassembly::TEXT]
}

fn main(rt: HostRuntime) -> io::Result<()> {
    let mut input = header::input_buffer();
    let n = streams::read_full(&mut rt.stdin(), &mut input)?;
    let mut out = text_buffer();
    let end = disassembly::disassemble(&input[..n], &mut out);
    rt.write_all(parts::front(&out, end))
}
