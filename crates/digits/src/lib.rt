// Numbers in decimal, written where there is room for as many digits as they may have.
#![tactic(auto)]

ghost use Rattle.std.specs.Prelude.{◌∷◌, [], ◌+◌, ◌<◌, ◌≤◌, length};
ghost use Rattle.digits.specs.Digits.{Put, decimal, two_digits};

pub fn write_byte(out: &mut [u8], at: usize, b: u8) -> usize
    requires { at < length out.old }
    ensures { Put out.old at (b ∷ []) out.new result × (result ≤ at + 1) }
{
    out[at] = b;
    at + 1
}

fn write_two(out: &mut [u8], at: usize, n: u32) -> usize
    requires { (n < 100) × (at + 2 ≤ length out.old) }
    ensures { Put out.old at (two_digits n) out.new result × (result ≤ at + 2) }
{
    out[at] = b'0' + (n / 10) as u8;
    out[at + 1] = b'0' + (n % 10) as u8;
    at + 2
}

// One digit or two.
fn write_few(out: &mut [u8], at: usize, n: u32) -> usize
    requires { (n < 100) × (at + 2 ≤ length out.old) }
    ensures { Put out.old at (decimal n) out.new result × (result ≤ at + 2) }
{
    if n < 10 {
        return write_byte(out, at, b'0' + n as u8);
    }
    write_two(out, at, n)
}

// Four digits at most.
pub fn write_some(out: &mut [u8], at: usize, n: u32) -> usize
    requires { (n < 10000) × (at + 4 ≤ length out.old) }
    ensures { Put out.old at (decimal n) out.new result × (result ≤ at + 4) }
{
    if n < 100 {
        return write_few(out, at, n);
    }
    let next = write_few(out, at, n / 100);
    write_two(out, next, n % 100)
}

// Six digits at most.
pub fn write_many(out: &mut [u8], at: usize, n: u32) -> usize
    requires { (n < 1000000) × (at + 6 ≤ length out.old) }
    ensures { Put out.old at (decimal n) out.new result × (result ≤ at + 6) }
{
    if n < 100 {
        return write_few(out, at, n);
    }
    let next = write_some(out, at, n / 100);
    write_two(out, next, n % 100)
}

// Eight digits at most.
fn write_most(out: &mut [u8], at: usize, n: u32) -> usize
    requires { (n < 100000000) × (at + 8 ≤ length out.old) }
    ensures { Put out.old at (decimal n) out.new result × (result ≤ at + 8) }
{
    if n < 10000 {
        return write_some(out, at, n);
    }
    let next = write_many(out, at, n / 100);
    write_two(out, next, n % 100)
}

// Ten digits at most.
fn write_large(out: &mut [u8], at: usize, n: u32) -> usize
    requires { at + 10 ≤ length out.old }
    ensures { Put out.old at (decimal n) out.new result × (result ≤ at + 10) }
{
    if n < 10000 {
        return write_some(out, at, n);
    }
    let next = write_most(out, at, n / 100);
    write_two(out, next, n % 100)
}

// Any number, where there is room for the longest. Most have one digit or two, and are written without a call.
pub fn write_number(out: &mut [u8], at: usize, n: u32) -> usize
    requires { at + 10 ≤ length out.old }
    ensures { Put out.old at (decimal n) out.new result × (result ≤ at + 10) }
{
    if n < 100 {
        return write_few(out, at, n);
    }
    write_large(out, at, n)
}
