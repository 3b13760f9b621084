// The table of words, and the rows that are made of it, put into a lent buffer.
#![tactic(auto)]

ghost use Rattle.std.specs.Prelude.{◌∷◌, [], ◌≡◌, ◌*◌, ◌+◌, ◌<◌, ◌≤◌, drop, length};
ghost use Rattle.rows.specs.Table.{half, raw_row, row, shaped, times, trimmed_row};
ghost use Rattle.digits.specs.Digits.{Put};
ghost use Rattle.words.specs.Room.{arrow, longest_row, row_room};
ghost use Rattle.words.specs.Rows.{part, row_in};

// A buffer of this size takes any row while it is made.
pub const ROOM: usize = 2048;

// How many rows there are.
pub const ROWS: usize = 17;

pub fn put(out: &mut [u8], at: usize, s: &[u8]) -> usize
    requires { at + length s.now ≤ length out.old }
    ensures { Put out.old at s.now out.new result × (result ≡ at + length s.now) }
{
    let end = at + s.len();
    out[at..end].copy_from_slice(s);
    end
}

// The same characters so many times.
fn put_times(out: &mut [u8], at: usize, n: usize, s: &[u8]) -> usize
    requires { (length s.now ≤ 16) × (n ≤ 104) × (at + 16 * n ≤ length out.old) }
    ensures { Put out.old at (times n s.now) out.new result × (result ≤ at + 16 * n) }
{
    let mut end = at;
    for i in 0..n {
        end = put(out, end, s);
    }
    end
}

// The characters from a place to another, none where there are not so many.
fn part(characters: &[u8], from: usize, end: usize) -> &[u8]
    ensures { result.now ≡ part characters.now from end }
{
    characters.get(from..end).unwrap_or(&[])
}

// The numbers from place k on.
fn rest(starts: &[u16], k: usize) -> &[u16]
    ensures { result.now ≡ drop k starts.now }
{
    starts.get(k..).unwrap_or(&[])
}

// Row k of a table: it ends where the next one starts. Past the last there is none.
pub fn row_of<'a>(characters: &'a [u8], starts: &'a [u16], k: usize) -> &'a [u8]
    ensures { result.now ≡ row_in characters.now starts.now k }
{
    match rest(starts, k) {
        [from, end, ..] => part(characters, *from as usize, *end as usize),
        _ => &[],
    }
}

// The rows one after the other, a row for each kind of line. What the characters stand for is said in specs/ of the crate `rows`.
pub const TABLE: [u8; 394] = *b"\
    \x01\x00vaults # tolerate # faulty @\
    \x02\x00version 2 vaults # tolerate # faulty @\
    \x01\x00accession drive #\
    \x01\x01migration drive #\
    \x01record \
    \x02preflight vault # job #\
    \x03commit vault # job # signers @\
    \x04faulty-signature vault # job #\
    \x05faulty-acknowledgement vault # job #\
    \x06show job #\
    \x07draw #\
    \x08generations job #\
    \x09snapshot\
    \x0arelease vault # job # rival #\
    \x0bdependencies vault # job #\
    \x0cclient-preflight vault # job # client #\
    \x0dequivocating";

// Where each row starts, in bytes from the first, and at last where they end.
pub const STARTS: [u16; 18] = [
    0, 30, 70, 89, 108, 116, 140, 171, 202, 239, 250, 257, 275, 284, 314, 341, 381, 394,
];

pub fn put_row(out: &mut [u8], k: usize) -> usize
    requires { 64 ≤ length out.old }
    ensures { Put out.old 0 (row k) out.new result × (result ≤ 64) }
{
    put(out, 0, row_of(&TABLE, &STARTS, k))
}

// So many entries of four, and the others' zeros.
fn put_half(out: &mut [u8], at: usize, n: usize) -> usize
    requires { (n ≤ 4) × (at + 832 ≤ length out.old) }
    ensures { Put out.old at (half n) out.new result × (result ≤ at + 48) }
{
    let end = put_times(out, at, n, b" ????????:$");
    put_times(out, end, 48 - 12 * n, b"\x00")
}

fn put_arrow(out: &mut [u8], at: usize, k: usize) -> usize
    requires { at + 3 ≤ length out.old }
    ensures { Put out.old at (arrow k) out.new result × (result ≤ at + 3) }
{
    if k == 2 { at } else { put(out, at, b" ->") }
}

fn put_trimmed(out: &mut [u8], at: usize, version: u16, trimmed: u32) -> usize
    requires { at + 64 ≤ length out.old }
    ensures { Put out.old at (trimmed_row version trimmed) out.new result × (result ≤ at + 10) }
{
    if version != 2 {
        return at;
    }
    if trimmed == 0 {
        put_times(out, at, 4, b"\x00")
    } else {
        put(out, at, b" trimmed $")
    }
}

// The row of a proposal with so many entries.
pub fn put_shaped(
    out: &mut [u8],
    version: u16,
    k: usize,
    inputs: u8,
    outputs: u8,
    trimmed: u32,
) -> usize
    requires { (inputs ≤ 4) × (outputs ≤ 4) × (row_room ≤ length out.old) }
    ensures { Put out.old 0 (shaped version k inputs outputs trimmed) out.new result × (result ≤ longest_row) }
{
    let a = put_row(out, k);
    let b = digits::write_byte(out, a, inputs);
    let c = digits::write_byte(out, b, outputs);
    let d = put_half(out, c, inputs as usize);
    let e = put_arrow(out, d, k);
    let f = put_half(out, e, outputs as usize);
    put_trimmed(out, f, version, trimmed)
}

// The row of a record byte by byte.
pub fn put_raw(out: &mut [u8], version: u16) -> usize
    requires { row_room ≤ length out.old }
    ensures { Put out.old 0 (raw_row version) out.new result × (result ≤ longest_row) }
{
    let end = put_row(out, 4);
    put_times(out, end, codec::record_size(version), b"%")
}
