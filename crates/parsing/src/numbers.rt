// Numbers in decimal, and sets of vaults as lists of them.
ghost use Rattle.std.specs.Prelude.{◌&&◌, cond, false, true, ◌≡◌, ◌-◌, ◌≤◌, ◌<◌, ◌^◌, eqb, drop, length};
ghost use Rattle.sets.specs.Bits.{with_member};
ghost use Rattle.rows.specs.Items.{closed, is_digit, no_vault, numbers_in, too_large};
ghost use Rattle.parsing.specs.Took.{Took};

use crate::Token;

pub(crate) fn is_digit(c: u8) -> bool
    ensures { result ≡ is_digit c }
{
    c.is_ascii_digit()
}

// What a digit is worth.
fn worth(c: u8) -> u64
    requires { is_digit c ≡ true }
    ensures { (result ≡ c - 48) × (result < 10) }
{
    (c - 48) as u64
}

fn is_comma(many: bool, c: u8) -> bool
    ensures { result ≡ (many && eqb c 44) }
{
    many && c == b','
}

// The reason of a number that is not below its bound.
fn over(many: bool) -> u8
    ensures { result ≡ cond many no_vault too_large }
{
    if many { 3 } else { 2 }
}

// A set with one vault more; no set has one above 15.
fn joined(set: u16, n: u64) -> u16
    ensures { result ≡ with_member 16 set n }
{
    if n < 16 {
        return sets::vaults::with(set, n as u8);
    }
    set
}

fn closing(many: bool, set: u16, n: u64) -> u32
    requires { n < 2 ^ 32 }
    ensures { result ≡ closed many set n }
{
    if many {
        joined(set, n) as u32
    } else {
        n as u32
    }
}

// A number below the bound, or a list of such numbers, as a set.
pub(crate) fn numbers(many: bool, bound: u64, text: &[u8], from: usize) -> Token
    requires { (from ≤ length text.now) × (0 < bound) × (bound ≤ 2 ^ 32) }
    ensures { Took (numbers_in many bound false 0 0 (drop from text.now)) text.now result }
{
    let mut seen = false;
    let mut set: u16 = 0;
    let mut n: u64 = 0;
    for at in from..text.len() {
        let c = text[at];
        if is_digit(c) {
            let m = n * 10 + worth(c);
            if m < bound {
                n = m;
                seen = true;
                continue;
            }
            return Token {
                reason: over(many),
                value: 0,
                next: at,
            };
        }
        if seen {
            if is_comma(many, c) {
                set = joined(set, n);
                n = 0;
                seen = false;
                continue;
            }
            return Token {
                reason: 0,
                value: closing(many, set, n),
                next: at,
            };
        }
        return Token {
            reason: 1,
            value: 0,
            next: at,
        };
    }
    if seen {
        return Token {
            reason: 0,
            value: closing(many, set, n),
            next: text.len(),
        };
    }
    Token {
        reason: 1,
        value: 0,
        next: text.len(),
    }
}
