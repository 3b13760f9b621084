// What the programs that run cases share. A script is text with a case on each line; a case is printed with the figures of its answer behind it.
#![tactic(auto)]

ghost use Rattle.std.specs.Prelude.{◌≡◌, ◌<◌, ◌≤◌, drop, get_or, length, take};
ghost use Rattle.notation.specs.Lines.{step_read};
ghost use Rattle.parsing.specs.Took.{ReadTo};
ghost use Rattle.scripts.specs.Lines.{end_of, is_comment, is_shown};

use outcome::Outcome;
use parsing::{Parsed, Token};
use std::fmt;

// Room for the bytes of a step, whose row has at most 180 characters.
pub const ROOM: usize = 1024;

// An answer as the cases print it: its two figures.
#[derive(Clone, Copy)]
pub struct Figures(pub Outcome);

impl fmt::Display for Figures {
    fn fmt<W: fmt::Write>(&self, f: &mut fmt::Formatter<W>) -> fmt::Result {
        let number = outcome::number(self.0);
        let value = outcome::value(self.0);
        write!(f, "{number} {value}")
    }
}

// The bytes from a place up to another; none where these are not inside.
pub fn part(bytes: &[u8], from: usize, to: usize) -> &[u8]
    ensures { result.now ≡ drop from (take to bytes.now) }
{
    parts::from(parts::front(bytes, to), from)
}

// Where the line after this one begins.
pub fn after_line(text: &[u8], from: usize) -> usize
    requires { from < length text.now }
    ensures { (from < result) × (result ≤ length text.now) }
{
    for at in from..text.len() {
        if text[at] == b'\n' {
            return at + 1;
        }
    }
    text.len()
}

// A comment is passed over.
pub fn is_comment(text: &[u8], at: usize) -> bool
    ensures { result ≡ is_comment (get_or text.now at 0) }
{
    fields::byte_at(text, at) == b'#'
}

// A heading and an empty line are printed as they stand. Any other line is a case.
pub fn is_shown(text: &[u8], at: usize) -> bool
    ensures { result ≡ is_shown (get_or text.now at 0) }
{
    let first = fields::byte_at(text, at);
    first == b'\n' || first == b'='
}

// What may stand before a case, read by its row: the number that it says, below 65,536, or the reason why it does not stand there and the
// number that is meant then.
pub fn prefix(row: &[u8], text: &[u8], at: usize, unsaid: u32) -> Token
    requires { (at ≤ length text.now) × (length row.now ≤ 16) }
    ensures { result.next ≤ length text.now }
{
    let mut bytes = [0u8; 64];
    let p = parsing::read_row(row, text, at, &mut bytes, 0);
    if p.reason != 0 {
        return Token {
            reason: p.reason,
            value: unsaid,
            next: at,
        };
    }
    Token {
        reason: 0,
        value: fields::word_at(&bytes, 0) as u32,
        next: p.next,
    }
}

// The step of a run file that the text says at a place: its kind and its body go into `bytes`.
pub fn read_step(version: u16, text: &[u8], at: usize, bytes: &mut [u8; ROOM]) -> Parsed
    requires { at ≤ length text.now }
    ensures { ReadTo (step_read version (drop at text.now)) text.now 0 bytes.old bytes.new result }
{
    let mut row = [0u8; words::ROOM];
    lines::step_read(version, text, at, &mut row, bytes, 0)
}

// Where a step's bytes end: those of its body may be cut to a number that stands before it.
pub fn end_of(cut: Token, end: usize) -> usize
    ensures { result ≡ end_of cut end }
{
    if cut.reason == 0 {
        return 1 + cut.value as usize;
    }
    end
}

// What follows the kind.
pub fn body(bytes: &[u8; ROOM], end: usize) -> &[u8]
    ensures { result.now ≡ drop 1 (take end bytes.now) }
{
    part(bytes, 1, end)
}
