// The row that a step is written by.
#![tactic(auto)]

ghost use Rattle.std.specs.Prelude.{true, ◌≡◌, ◌<◌, ◌≤◌, length};
ghost use Rattle.row_choice.specs.Rows.{Stands};
ghost use Rattle.notation.specs.Lines.{has_shape, proposal_row, row_of, shaped_for};
ghost use Rattle.rows.specs.Table.{raw_row};
ghost use Rattle.words.specs.Room.{row_room};

// An accession has no inputs, and there are four entries at most on either side.
fn has_shape(step: &[u8]) -> bool
    ensures { result ≡ has_shape step.now }
{
    if fields::byte_at(step, 4) > 4 {
        return false;
    }
    match fields::byte_at(step, 1) {
        0 => fields::byte_at(step, 3) == 0,
        1 => fields::byte_at(step, 3) <= 4,
        _ => false,
    }
}

fn shaped_row(version: u16, step: &[u8], buffer: &mut [u8]) -> usize
    requires { (has_shape step.now ≡ true) × (row_room ≤ length buffer.old) }
    ensures { Stands (shaped_for version step.now) buffer.new result }
{
    words::put_shaped(
        buffer,
        version,
        2 + fields::byte_at(step, 1) as usize,
        fields::byte_at(step, 3),
        fields::byte_at(step, 4),
        printing::value_at(step, 101, 4),
    )
}

fn raw_row(version: u16, buffer: &mut [u8]) -> usize
    requires { row_room ≤ length buffer.old }
    ensures { Stands (raw_row version) buffer.new result }
{
    words::put_raw(buffer, version)
}

// By its shape where that can say the record, else byte by byte.
fn proposal_row(version: u16, step: &[u8], buffer: &mut [u8]) -> usize
    requires { row_room ≤ length buffer.old }
    ensures { Stands (proposal_row version step.now) buffer.new result }
{
    if has_shape(step) {
        let n = shaped_row(version, step, buffer);
        if printing::fits(parts::front(buffer, n), step) {
            return n;
        }
        return raw_row(version, buffer);
    }
    raw_row(version, buffer)
}

// Puts the row at the front of `buffer`.
pub fn row_of(version: u16, step: &[u8], buffer: &mut [u8]) -> usize
    requires { row_room ≤ length buffer.old }
    ensures { Stands (row_of version step.now) buffer.new result }
{
    let kind = fields::byte_at(step, 0);
    if kind == 1 {
        return proposal_row(version, step, buffer);
    }
    words::put_row(buffer, kind as usize + 3)
}
