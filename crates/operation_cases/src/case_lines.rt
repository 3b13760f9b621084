// The lines of the script: a case is a step of a run file's text or one of the program's own, and something may stand before it.
ghost use Rattle.std.specs.Prelude.{◌≤◌, length};

use parsing::Parsed;
use scripts::ROOM;
use std::io;
use std::io::Print;

// A case as it was read: the kind of its step, 0 where there is none to carry out; how many bytes of the journal are lent; and where its
// body ends.
#[derive(Clone, Copy)]
pub(crate) struct Case {
    pub(crate) kind: u8,
    pub(crate) lent: usize,
    pub(crate) end: usize,
}

const NONE: Case = Case {
    kind: 0,
    lent: 0,
    end: 0,
};

// A case of the program's own.
fn own_read(text: &[u8], at: usize, bytes: &mut [u8; ROOM]) -> Parsed
    requires { at ≤ length text.now }
    ensures { result.next ≤ length text.now }
{
    let p = parsing::read_row(
        b"\x0e\x01\x00vaults # tolerate # faulty @",
        text,
        at,
        bytes,
        0,
    );
    if p.reason == 0 {
        return p;
    }
    let p = parsing::read_row(
        b"\x0eversion #\x00 vaults # tolerate # faulty @",
        text,
        at,
        bytes,
        0,
    );
    if p.reason == 0 {
        return p;
    }
    parsing::read_row(b"\x0flookup job #", text, at, bytes, 0)
}

// That, or a step of a run file's text. Its kind and its body go into `bytes`.
fn read(version: u16, text: &[u8], at: usize, bytes: &mut [u8; ROOM]) -> Parsed
    requires { at ≤ length text.now }
    ensures { result.next ≤ length text.now }
{
    let p = own_read(text, at, bytes);
    if p.reason == 0 {
        return p;
    }
    scripts::read_step(version, text, at, bytes)
}

// A case with what stands before it; its text is printed.
fn read_case(
    rt: &HostRuntime,
    version: u16,
    text: &[u8],
    at: usize,
    bytes: &mut [u8; ROOM],
) -> io::Result<Case>
    requires { at ≤ length text.now }
{
    let lent = scripts::prefix(b"lent $: ", text, at, 65535);
    let cut = scripts::prefix(b"cut $: ", text, lent.next, 0);
    let p = read(version, text, cut.next, bytes);
    rt.write_all(scripts::part(text, at, p.next))?;
    print!(rt; " =>")?;
    if p.reason != 0 {
        println!(rt; " ?")?;
        return Ok(NONE);
    }
    Ok(Case {
        kind: bytes[0],
        lent: lent.value as usize,
        end: scripts::end_of(cut, p.end),
    })
}

// A line, which may be a case.
pub(crate) fn read_line(
    rt: &HostRuntime,
    version: u16,
    text: &[u8],
    at: usize,
    next: usize,
    bytes: &mut [u8; ROOM],
) -> io::Result<Case>
    requires { at ≤ length text.now }
{
    if scripts::is_comment(text, at) {
        return Ok(NONE);
    }
    if scripts::is_shown(text, at) {
        rt.write_all(scripts::part(text, at, next))?;
        return Ok(NONE);
    }
    read_case(rt, version, text, at, bytes)
}
