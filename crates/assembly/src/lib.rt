// A whole text made into a run file.
#![tactic(auto)]

mod places;

ghost use Rattle.std.specs.Prelude.{◌≡◌, ◌<◌, ◌≤◌, drop, length};
ghost use Rattle.assembly.specs.Assembles.{Assembles, Judged, ending, line_room};
ghost use Rattle.lines.specs.LineTo.{LineTo};
ghost use Rattle.notation.specs.Files.{assembled, line_read, longest_text};
ghost use Rattle.runfile.specs.Run.{longest};
ghost use Rattle.words.specs.Room.{row_room};

use parsing::Parsed;

// A buffer of this size takes the longest file.
pub const OUT: usize = 65536;

// And one of this size the bytes of any line.
const LINE: usize = 723;

// One byte more than the longest text that is taken, to see that there are too many.
pub const TEXT: usize = 2097153;

// The text of any run file is taken.
pub fn text_buffer() -> [u8; TEXT]
    ensures { longest_text < length result }
{
    [0; TEXT]
}

// What has been made of a text: why it is wrong, if it is, and in which line, and how many bytes the file has.
#[derive(Clone, Copy)]
pub struct Made {
    pub reason: u8,
    pub line: u64,
    pub end: usize,
}

// A line after the bytes that were made of those before it: the header where there are none. What it says goes to the front of `bytes`.
fn line_read(text: &[u8], at: usize, buffer: &mut [u8], bytes: &mut [u8], made: &[u8]) -> Parsed
    requires { (at ≤ length text.now) × (row_room ≤ length buffer.old) × (line_room ≤ length bytes.old) }
    ensures { LineTo (line_read made.now (drop at text.now)) text.now 0 bytes.old
        bytes.new result }
{
    if made.len() == 0 {
        return lines::header_read(text, at, bytes);
    }
    lines::step_read(fields::word_at(made, 3), text, at, buffer, bytes, 0)
}

// Why a line that was read can't be taken: it is wrong, something follows on it, or the file, which ends at `end` before it, would be too long.
fn judge(text: &[u8], p: Parsed, end: usize) -> u8
    requires { (p.next ≤ length text.now) × (end ≤ longest) }
    ensures { Judged text.now p end result }
{
    if p.reason != 0 {
        return p.reason;
    }
    if places::is_over(text, places::skip_blanks(text, p.next)) {
        if p.end > OUT - end {
            return 13;
        }
        return 0;
    }
    8
}

fn verdict(reason: u8, line: u64, end: usize) -> Made
    ensures { result ≡ record { reason = reason; line = line; end = end } }
{
    Made { reason, line, end }
}

// A text without a header is no run file.
fn finish(line: u64, end: usize) -> Made
    ensures { result ≡ ending line end }
{
    if end == 0 {
        return verdict(11, line, 0);
    }
    verdict(0, line, end)
}

// Line by line. `buffer` has room for a row, and `bytes` for a line; `out` gets those that are taken, and nothing else.
fn make(text: &[u8], buffer: &mut [u8], bytes: &mut [u8], out: &mut [u8]) -> Made
    requires { (row_room ≤ length buffer.old) × (line_room ≤ length bytes.old) × (longest ≤ length out.old) }
    ensures { Assembles (assembled text.now) out.old out.new result }
{
    let mut at = 0;
    let mut end = 0;
    for passed in 0..text.len() {
        let line = passed as u64 + 1;
        if text.len() <= at {
            return finish(line, end);
        }
        let start = places::skip_blanks(text, at);
        if places::is_over(text, start) {
            at = places::after_line(text, start);
            continue;
        }
        let p = line_read(text, start, buffer, bytes, parts::front(out, end));
        let why = judge(text, p, end);
        if why != 0 {
            return verdict(why, line, end);
        }
        end = words::put(out, end, parts::front(bytes, p.end));
        at = places::after_line(text, p.next);
    }
    finish(text.len() as u64 + 1, end)
}

// The run file that a text says stands at the front of `out` afterwards; or the lines before the first that is wrong, whose number is handed
// back, and why. What is behind stays as it was.
pub fn assemble(text: &[u8], out: &mut [u8; OUT]) -> Made
    ensures { Assembles (assembled text.now) out.old out.new result × (length out.new ≡ longest) }
{
    let mut buffer = [0u8; words::ROOM];
    let mut bytes = [0u8; LINE];
    make(text, &mut buffer, &mut bytes, out)
}
