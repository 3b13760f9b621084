// A step written by a row.
#![tactic(auto)]

mod items;

ghost use Rattle.std.specs.Prelude.{◌≡◌, ◌*◌, ◌+◌, ◌<◌, ◌^◌, ◌≤◌, drop, get_or, length};
ghost use Rattle.codec.specs.Codec.{le_at};
ghost use Rattle.rows.specs.Writing.{fits, longest_by, text_by};
ghost use Rattle.printing.specs.Member.{item_room};
ghost use Rattle.digits.specs.Digits.{Put};

pub use items::put_member;

// The number of so many bytes from a place on, the low byte first.
pub fn value_at(step: &[u8], at: usize, count: usize) -> u32
    requires { (count ≤ 4) × (at ≤ 65536) }
    ensures { (result ≡ le_at (drop at step.now) 0 count) × (result < 256 ^ count) }
{
    codec::number_at(step, at, count) as u32
}

// The row can say the step.
pub fn fits(row: &[u8], step: &[u8]) -> bool
    requires { length row.now ≤ 2048 }
    ensures { result ≡ fits row.now step.now }
{
    let mut at = 0;
    for &c in row {
        let width = parsing::width(c);
        if !items::fits(c, value_at(step, at, width)) {
            return false;
        }
        at += width;
    }
    true
}

// The step as the row writes it, where there is room for the longest text of each character of the row, and for one more.
pub fn write_row(row: &[u8], step: &[u8], out: &mut [u8], start: usize) -> usize
    requires { (length row.now ≤ 2048) × (start + longest_by row.now + item_room ≤ length out.old) }
    ensures { Put out.old start (text_by row.now step.now) out.new result
        × (result ≤ start + longest_by row.now) }
{
    let mut end = start;
    let mut at = 0;
    for &c in row {
        let width = parsing::width(c);
        // A character that stands for no bytes stands for itself.
        end = if width == 0 {
            digits::write_byte(out, end, c)
        } else {
            items::write(c, value_at(step, at, width), out, end)
        };
        at += width;
    }
    end
}
