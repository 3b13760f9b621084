// One line of a text: which row it is read by, and the bytes of its step.
#![tactic(auto)]

mod choice;
mod shape;

ghost use Rattle.std.specs.Prelude.{◌≡◌, ◌*◌, ◌+◌, ◌≤◌, drop, length};
ghost use Rattle.rows.specs.Reading.{read_by};
ghost use Rattle.rows.specs.Table.{raw_row, row};
ghost use Rattle.federation.specs.Federation.{is_lawful_up_to, latest};
ghost use Rattle.lines.specs.LineTo.{LineTo};
ghost use Rattle.notation.specs.Files.{header_read};
ghost use Rattle.notation.specs.Lines.{proposal_read, step_read};
ghost use Rattle.runfile.specs.Run.{opened};
ghost use Rattle.parsing.specs.Took.{ReadTo};
ghost use Rattle.words.specs.Room.{longest_row, row_room};

use notation::Shape;
use parsing::Parsed;
pub use shape::closes;

fn wrong(reason: u8, next: usize, end: usize) -> Parsed
    ensures { result ≡ record { reason = reason; next = next; end = end } }
{
    Parsed { reason, next, end }
}

fn proposal_read(
    version: u16,
    k: usize,
    s: Shape,
    text: &[u8],
    at: usize,
    buffer: &mut [u8],
    out: &mut [u8],
    end: usize,
) -> Parsed
    requires { (at ≤ length text.now) × (row_room ≤ length buffer.old) × (end + 4 * longest_row ≤ length out.old) }
    ensures { ReadTo (proposal_read version k s (drop at text.now)) text.now end out.old out.new result }
{
    if s.inputs > 4 || s.outputs > 4 {
        return wrong(9, at, end);
    }
    let n = words::put_shaped(buffer, version, k, s.inputs, s.outputs, s.trimmed as u32);
    parsing::read_row(parts::front(buffer, n), text, at, out, end)
}

fn raw_read(
    version: u16,
    text: &[u8],
    at: usize,
    buffer: &mut [u8],
    out: &mut [u8],
    end: usize,
) -> Parsed
    requires { (at ≤ length text.now) × (row_room ≤ length buffer.old) × (end + 4 * longest_row ≤ length out.old) }
    ensures { ReadTo (read_by (raw_row version) (drop at text.now)) text.now end out.old out.new result }
{
    let n = words::put_raw(buffer, version);
    parsing::read_row(parts::front(buffer, n), text, at, out, end)
}

// By a row of the table.
fn own_read(k: usize, text: &[u8], at: usize, out: &mut [u8], end: usize) -> Parsed
    requires { (at ≤ length text.now) × (end + 4 * longest_row ≤ length out.old) }
    ensures { ReadTo (read_by (row k) (drop at text.now)) text.now end out.old out.new result }
{
    parsing::read_row(
        words::row_of(&words::TABLE, &words::STARTS, k),
        text,
        at,
        out,
        end,
    )
}

// The line that begins at a place, as a step of a file of the version; its bytes go into `out` at `end`. A part of the assembly, which sees
// to the room.
pub fn step_read(
    version: u16,
    text: &[u8],
    at: usize,
    buffer: &mut [u8],
    out: &mut [u8],
    end: usize,
) -> Parsed
    requires { (at ≤ length text.now) × (row_room ≤ length buffer.old) × (end + 4 * longest_row ≤ length out.old) }
    ensures { ReadTo (step_read version (drop at text.now)) text.now end out.old out.new result }
{
    let k = choice::row_for(text, at);
    if k >= words::ROWS {
        return wrong(7, at, end);
    }
    if k < 2 {
        return wrong(10, at, end);
    }
    if k <= 3 {
        return proposal_read(
            version,
            k,
            shape::shape_at(k, text, at),
            text,
            at,
            buffer,
            out,
            end,
        );
    }
    if k == 4 {
        return raw_read(version, text, at, buffer, out, end);
    }
    own_read(k, text, at, out, end)
}

// The settings of a header are lawful.
fn is_lawful(input: &[u8]) -> bool
    ensures { result ≡ is_lawful_up_to latest (opened input.now).settings }
{
    header::settings_in(input).is_lawful()
}

// The line that begins at a place, as a header; the file's first nine bytes go into `out`.
pub fn header_read(text: &[u8], at: usize, out: &mut [u8]) -> Parsed
    requires { (at ≤ length text.now) × (3 + 4 * longest_row ≤ length out.old) }
    ensures { LineTo (header_read (drop at text.now)) text.now 0 out.old out.new result }
{
    let k = choice::row_for(text, at);
    if k >= 2 {
        return wrong(11, at, 0);
    }
    let end = words::put(out, 0, b"VLT");
    let p = own_read(k, text, at, out, end);
    if p.reason != 0 {
        return wrong(p.reason, at, 0);
    }
    if is_lawful(parts::front(out, p.end)) {
        return p;
    }
    wrong(12, at, 0)
}
