// What a character of a row stands for, read at a place of a text.
ghost use Rattle.std.specs.Prelude.{◌≡◌, ◌+◌, ◌≤◌, ◌<◌, drop, length, take};
ghost use Rattle.rows.specs.Items.{form_of, hex_in, hex_of, is_plain, lacks, literal_in, plain_in, says_none, set_in, take_as, width};
ghost use Rattle.parsing.specs.Took.{Took};

use crate::{Token, numbers};

fn token(reason: u8, value: u32, next: usize) -> Token
    ensures { result ≡ record { reason = reason; value = value; next = next } }
{
    Token {
        reason,
        value,
        next,
    }
}

fn four(text: &[u8], at: usize) -> &[u8]
    requires { at + 4 ≤ length text.now }
    ensures { result.now ≡ take 4 (drop at text.now) }
{
    let end = at + 4;
    &text[at..end]
}

// The empty set.
fn says_none(text: &[u8], at: usize) -> bool
    requires { at ≤ length text.now }
    ensures { result ≡ says_none (drop at text.now) }
{
    if text.len() - at < 4 {
        return false;
    }
    check::same(four(text, at), b"none")
}

fn set(text: &[u8], at: usize) -> Token
    requires { at ≤ length text.now }
    ensures { Took (set_in (drop at text.now)) text.now result }
{
    if says_none(text, at) {
        return token(0, 0, at + 4);
    }
    numbers::numbers(true, 16, text, at)
}

fn hex_of(c: u8) -> u32
    ensures { result ≡ hex_of c }
{
    match c {
        b'0'..=b'9' => (c - b'0') as u32,
        b'a'..=b'f' => (c - b'a') as u32 + 10,
        _ => 16,
    }
}

fn hex(text: &[u8], at: usize) -> Token
    requires { at ≤ length text.now }
    ensures { Took (hex_in (drop at text.now)) text.now result }
{
    if text.len() - at < 2 {
        return token(5, 0, at);
    }
    let a = hex_of(text[at]);
    if a > 15 {
        return token(5, 0, at);
    }
    let b = hex_of(text[at + 1]);
    if b > 15 {
        return token(5, 0, at);
    }
    token(0, a * 16 + b, at + 2)
}

pub fn is_plain(c: u8) -> bool
    ensures { result ≡ is_plain c }
{
    c.is_ascii_uppercase() || c.is_ascii_digit()
}

fn plain(text: &[u8], at: usize) -> Token
    requires { at ≤ length text.now }
    ensures { Took (plain_in (drop at text.now)) text.now result }
{
    if at < text.len() && is_plain(text[at]) {
        return token(0, text[at] as u32, at + 1);
    }
    token(4, 0, at)
}

// The reason where a character is missing: a colon stands behind a label alone.
fn lacks(i: u8) -> u8
    ensures { result ≡ lacks i }
{
    if i == b':' { 4 } else { 6 }
}

fn literal(i: u8, text: &[u8], at: usize) -> Token
    requires { (at ≤ length text.now) × (0 < i) }
    ensures { Took (literal_in i (drop at text.now)) text.now result }
{
    if at < text.len() && text[at] == i {
        return token(0, 0, at + 1);
    }
    token(lacks(i), 0, at)
}

// How many bytes of the step the character stands for.
pub fn width(i: u8) -> usize
    ensures { (result ≡ width (form_of i)) × (result ≤ 4) }
{
    match i {
        0..=31 | b'#' | b'%' | b'?' => 1,
        b'@' => 2,
        b'$' => 4,
        _ => 0,
    }
}

pub(crate) fn item(i: u8, text: &[u8], at: usize) -> Token
    requires { at ≤ length text.now }
    ensures { Took (take_as (form_of i) i (drop at text.now)) text.now result }
{
    match i {
        0..=31 => token(0, i as u32, at),
        b'#' => numbers::numbers(false, 256, text, at),
        b'$' => numbers::numbers(false, 4294967296, text, at),
        b'@' => set(text, at),
        b'%' => hex(text, at),
        b'?' => plain(text, at),
        _ => literal(i, text, at),
    }
}
