// A line read by a row: the bytes of its step.
#![tactic(auto)]

mod items;
mod numbers;

ghost use Rattle.std.specs.Prelude.{◌≡◌, ◌*◌, ◌+◌, ◌≤◌, drop, length};
ghost use Rattle.std.proofs.lemmas.List.Edits.{sets};
ghost use Rattle.codec.specs.Codec.{le_bytes};
ghost use Rattle.rows.specs.Reading.{read_by};
ghost use Rattle.parsing.specs.Took.{ReadTo};

pub use items::{is_plain, width};

// What was read at a place of a text: its value and where the rest begins, or why not. The reason 0 is none.
#[derive(Clone, Copy)]
pub struct Token {
    pub reason: u8,
    pub value: u32,
    pub next: usize,
}

// What was read by a row: why the reading stopped, if it did, where the rest of the text begins, and where the bytes end.
#[derive(Clone, Copy)]
pub struct Parsed {
    pub reason: u8,
    pub next: usize,
    pub end: usize,
}

// The low byte first.
fn put_value(out: &mut [u8], at: usize, count: usize, value: u32) -> usize
    requires { at + count ≤ length out.old }
    ensures { (out.new ≡ sets out.old at (le_bytes count value)) × (result ≡ at + count) }
{
    codec::put_number(out, at, count, u64::from(value));
    at + count
}

// The text from a place on, read by a row; the bytes go into `out`, which has room for four of each character of the row.
pub fn read_row(row: &[u8], text: &[u8], from: usize, out: &mut [u8], start: usize) -> Parsed
    requires { (from ≤ length text.now) × (start + 4 * length row.now ≤ length out.old) }
    ensures { ReadTo (read_by row.now (drop from text.now)) text.now start out.old out.new result }
{
    let mut at = from;
    let mut end = start;
    for &c in row {
        let t = items::item(c, text, at);
        if t.reason != 0 {
            return Parsed {
                reason: t.reason,
                next: t.next,
                end,
            };
        }
        end = put_value(out, end, items::width(c), t.value);
        at = t.next;
    }
    Parsed {
        reason: 0,
        next: at,
        end,
    }
}
