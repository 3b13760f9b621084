// A run file written as a text.
#![tactic(auto)]

ghost use Rattle.std.specs.Prelude.{true, ◌++◌, [], ◌∷◌, ◌≡◌, ◌*◌, ◌+◌, ◌-◌, ◌≤◌, drop, length, take};
ghost use Rattle.disassembly.specs.Printed.{printed, text_room};
ghost use Rattle.notation.specs.Files.{header_line, lines_from, longest_text, per_byte, sayable, whole_from};
ghost use Rattle.notation.specs.Lines.{line_of, row_of};
ghost use Rattle.printing.specs.Member.{item_room};
ghost use Rattle.rows.specs.Writing.{longest_by};
ghost use Rattle.runfile.specs.Run.{header_size, longest, opens, version_in};
ghost use Rattle.digits.specs.Digits.{Put};

// A buffer of this size takes any text: twenty characters for each byte of the longest file, and room for an item while it is written.
pub const TEXT: usize = 1310920;

// The bytes of a file from a place up to another.
pub fn part(input: &[u8], pos: usize, end: usize) -> &[u8]
    requires { (pos ≤ end) × (end ≤ length input.now) }
    ensures { result.now ≡ take (end - pos) (drop pos input.now) }
{
    &input[pos..end]
}

// The line of a step without its end. A part of what writes whole lines, which sees to the room.
pub fn put_step(version: u16, step: &[u8], out: &mut [u8], start: usize) -> usize
    requires { start + longest_by (row_of version step.now) + item_room ≤ length out.old }
    ensures { Put out.old start (line_of version step.now) out.new result
        × (result ≤ start + longest_by (row_of version step.now)) }
{
    let mut buffer = [0u8; words::ROOM];
    let n = row_choice::row_of(version, step, &mut buffer);
    printing::write_row(parts::front(&buffer, n), step, out, start)
}

// The line of a step and its end.
fn put_line(version: u16, step: &[u8], out: &mut [u8], start: usize) -> usize
    requires { start + longest_by (row_of version step.now) + item_room ≤ length out.old }
    ensures { Put out.old start (line_of version step.now ++ (10 ∷ [])) out.new result
        × (result ≤ start + longest_by (row_of version step.now) + 1) }
{
    let end = put_step(version, step, out, start);
    words::put(out, end, b"\n")
}

// The header's line and its end, at the front of `out`.
fn put_header(version: u16, input: &[u8], out: &mut [u8]) -> usize
    requires { (version ≡ version_in input.now) × (opens input.now ≡ true) × (text_room ≤ length out.old) }
    ensures { Put out.old 0 (header_line input.now ++ (10 ∷ [])) out.new result × (result ≤ per_byte * header_size) }
{
    let mut buffer = [0u8; words::ROOM];
    let n = words::put_row(&mut buffer, (version - 1) as usize);
    let end = printing::write_row(parts::front(&buffer, n), part(input, 3, 9), out, 0);
    words::put(out, end, b"\n")
}

// The lines of all steps.
fn put_lines(version: u16, input: &[u8], out: &mut [u8], start: usize) -> usize
    requires { (version ≡ version_in input.now) × (sayable input.now ≡ true) × (start ≤ per_byte * header_size) × (text_room ≤ length out.old) }
    ensures { Put out.old start (lines_from (length input.now) version input.now header_size) out.new result
        × (result ≤ longest_text) }
{
    let mut end = start;
    let mut pos = 9;
    while pos < input.len() {
        let next = reading::step_at(version, input, pos, 0).end;
        end = put_line(version, part(input, pos, next), out, end);
        pos = next;
    }
    end
}

// No step is answered 2.
fn is_whole(input: &[u8], version: u16) -> bool
    requires { (9 ≤ length input.now) × (length input.now ≤ longest) }
    ensures { result ≡ whole_from (length input.now) version input.now 9 }
{
    let mut pos = 9;
    for _ in 0..input.len() {
        if input.len() <= pos {
            return true;
        }
        let step = reading::step_at(version, input, pos, 0);
        if kind_table::is_unknown(step.kind) {
            return false;
        }
        pos = step.end;
    }
    input.len() <= pos
}

// The file has no refusal 1 or 2 in it, so that a text can say it.
pub fn is_sayable(input: &[u8]) -> bool
    ensures { result ≡ sayable input.now }
{
    header::opens(input) && is_whole(input, fields::word_at(input, 3))
}

// The text of a file stands at the front of `out` afterwards; or, where a text can't say the file, a comment that says so.
pub fn disassemble(input: &[u8], out: &mut [u8; TEXT]) -> usize
    ensures { Put out.old 0 (printed input.now) out.new result
        × (result ≤ longest_text) × (length out.new ≡ text_room) }
{
    if is_sayable(input) {
        let version = fields::word_at(input, 3);
        let start = put_header(version, input, out);
        return put_lines(version, input, out, start);
    }
    words::put(
        out,
        0,
        b"# no text can say this file: it has a refusal 1 or 2 in it\n",
    )
}
