// Reads a script from standard input, whose cases are proposals of a run file's text, and examines their records. Each case is printed with the
// two figures of the answer behind it; where `sweep` stands before it, then the answers with each byte one up and one down. Documents 01 and 02 decide what
// they must be; `stdout` holds them.
#![tactic(auto)]

ghost use Rattle.std.specs.Prelude.{◌≤◌, length};

use scripts::{Figures, ROOM};
use std::io;
use std::io::Print;

// The answer of checks 6 to 9: that of a step with the value 0 where all pass.
fn examine(version: u16, bytes: &[u8]) -> Figures {
    Figures(examination::examine(version, bytes).map(|()| 0))
}

fn move_by(bytes: &mut [u8; ROOM], at: usize, step: u8) {
    if let Some(byte) = bytes.get_mut(at) {
        *byte = byte.wrapping_add(step);
    }
}

// One up, one down, and as it was.
fn move_byte(
    rt: &HostRuntime,
    version: u16,
    bytes: &mut [u8; ROOM],
    end: usize,
    at: usize,
) -> io::Result<()> {
    move_by(bytes, at, 1);
    let up = examine(version, scripts::body(bytes, end));
    move_by(bytes, at, 254);
    let down = examine(version, scripts::body(bytes, end));
    move_by(bytes, at, 1);
    println!(rt; " up {up} down {down}")
}

fn sweep(rt: &HostRuntime, version: u16, bytes: &mut [u8; ROOM], end: usize) -> io::Result<()> {
    for k in 1..end {
        let at = k - 1;
        print!(rt; "byte {at}")?;
        move_byte(rt, version, bytes, end, k)?;
    }
    Ok(())
}

fn answer(
    rt: &HostRuntime,
    version: u16,
    bytes: &mut [u8; ROOM],
    end: usize,
    swept: u8,
) -> io::Result<()> {
    let figures = examine(version, scripts::body(bytes, end));
    println!(rt; " {figures}")?;
    if swept == 0 {
        sweep(rt, version, bytes, end)?;
    }
    Ok(())
}

fn carry_case(rt: &HostRuntime, text: &[u8], at: usize) -> io::Result<()>
    requires { at ≤ length text.now }
{
    let mut bytes = [0u8; ROOM];
    let swept = scripts::prefix(b"sweep ", text, at, 0);
    let said = scripts::prefix(b"version $: ", text, swept.next, 1);
    let version = (said.value % 65536) as u16;
    let cut = scripts::prefix(b"cut $: ", text, said.next, 0);
    let p = scripts::read_step(version, text, cut.next, &mut bytes);
    rt.write_all(scripts::part(text, at, p.next))?;
    print!(rt; " =>")?;
    if p.reason != 0 {
        return println!(rt; " ?");
    }
    answer(
        rt,
        version,
        &mut bytes,
        scripts::end_of(cut, p.end),
        swept.reason,
    )
}

fn carry_line(rt: &HostRuntime, text: &[u8], at: usize, next: usize) -> io::Result<()>
    requires { at ≤ length text.now }
{
    if scripts::is_comment(text, at) {
        return Ok(());
    }
    if scripts::is_shown(text, at) {
        return rt.write_all(scripts::part(text, at, next));
    }
    carry_case(rt, text, at)
}

fn carry_out(rt: &HostRuntime, text: &[u8]) -> io::Result<()> {
    let mut at = 0;
    while at < text.len() {
        let next = scripts::after_line(text, at);
        carry_line(rt, text, at, next)?;
        at = next;
    }
    Ok(())
}

fn main(rt: HostRuntime) -> io::Result<()> {
    let mut text = [0u8; 65536];
    let n = streams::read_full(&mut rt.stdin(), &mut text)?;
    carry_out(&rt, &text[..n])
}
