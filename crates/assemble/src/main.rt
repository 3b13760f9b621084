// Reads the text of a run file from standard input and writes the file; or, where a line is wrong, its number and why, and no file.
#![tactic(auto)]

use std::io;
use std::io::Print;

// The reasons in words, by their numbers.
fn words_of(reason: u8) -> &'static str {
    match reason {
        1 => "a number is missing",
        2 => "the number is too large",
        3 => "the set names a vault above 15",
        4 => "the label is not eight characters of A to Z and 0 to 9",
        5 => "two hexadecimal digits are missing",
        6 => "the line does not go on as its first word asks",
        7 => "unknown word",
        8 => "more stands on the line than it should",
        9 => "too many entries: four at most on either side",
        10 => "a second header",
        11 => "the header is missing: vaults N tolerate B faulty SET",
        12 => "the settings are wrong",
        13 => "the file would be longer than 65536 bytes",
        _ => "unknown reason",
    }
}

fn assemble(rt: &HostRuntime, text: &[u8]) -> io::Result<()> {
    let mut out = [0u8; assembly::OUT];
    let made = assembly::assemble(text, &mut out);
    if made.reason == 0 {
        return rt.write_all(parts::front(&out, made.end));
    }
    let line = made.line;
    let reason = words_of(made.reason);
    println!(rt; "line {line}: {reason}")
}

fn main(rt: HostRuntime) -> io::Result<()> {
    let mut text = assembly::text_buffer();
    let n = streams::read_full(&mut rt.stdin(), &mut text)?;
    if n < assembly::TEXT {
        return assemble(&rt, &text[..n]);
    }
    println!(rt; "the text is longer than 2097152 bytes")
}
