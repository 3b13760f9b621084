// The run and its release list for other programs: `exported_c` gives them C names, and the comparisons with the Rust reference call them in process.
#![tactic(auto)]

ghost use Rattle.std.specs.Prelude.{◌*◌, ◌+◌, ◌≤◌, length};
ghost use Rattle.exported.specs.Fits.{Fits, Roomy, Written, most_bytes};
ghost use Rattle.release_file.specs.Releases.{releases_text};
ghost use Rattle.runfile.specs.Run.{run_text};
ghost use Rattle.digits.specs.Digits.{Put};
ghost use Rattle.text.specs.Text.{longest_text};

// Where the text as a whole fits, a piece of it goes behind those before it; else nothing is written.
fn append(fits: bool, out: &mut [u8], at: usize, piece: &[u8]) -> usize
    requires { Roomy fits (at + length piece.now) out.old × (at + length piece.now ≤ most_bytes) }
    ensures { Written fits out.old at piece.now out.new result }
{
    if fits {
        return words::put(out, at, piece);
    }
    at + piece.len()
}

// The run in pieces, which are written or only counted. A file that is turned back, or has no step, needs no tables.
fn carry_out(input: &[u8], out: &mut [u8], fits: bool) -> usize
    requires { Roomy fits (length (run_text input.now)) out.old }
    ensures { Written fits out.old 0 (run_text input.now) out.new result }
{
    let mut line = [0u8; text::LONGEST];
    let mut progress = run::start(input, &mut line);
    if progress.pos >= input.len() {
        return append(fits, out, 0, parts::front(&line, progress.written));
    }
    let mut memo = [0u8; journal::CAPACITY];
    let mut journal = [0u8; run::JOURNAL];
    let mut numbers = [0u16; index::NUMBERS];
    let mut sets = [0u64; index::SETS];
    let mut records = [0u16; index::RECORDS];
    let mut piece = [0u8; run::PIECE];
    let mut at = 0;
    while progress.pos < input.len() {
        progress = run::advance(
            progress,
            &mut memo,
            &mut journal,
            &mut numbers,
            &mut sets,
            &mut records,
            input,
            &mut piece,
        );
        at = append(fits, out, at, parts::front(&piece, progress.written));
    }
    at
}

// In a buffer with room for the longest text of a step for each byte of the input, and for one more, any text fits: it is written as the run goes on.
fn carry_out_at_once(input: &[u8], out: &mut [u8]) -> usize
    requires { longest_text * (length input.now + 1) ≤ length out.old }
    ensures { Fits (run_text input.now) out.old out.new result }
{
    let start = run::start(input, out);
    if start.pos >= input.len() {
        return start.written;
    }
    let mut memo = [0u8; journal::CAPACITY];
    let mut journal = [0u8; run::JOURNAL];
    let mut numbers = [0u16; index::NUMBERS];
    let mut sets = [0u64; index::SETS];
    let mut records = [0u16; index::RECORDS];
    let end = run::advance(
        start,
        &mut memo,
        &mut journal,
        &mut numbers,
        &mut sets,
        &mut records,
        input,
        out,
    );
    end.written
}

// The length of the text, which stands at the front of `out` afterwards if there is room for all of it; else nothing is written. In a buffer in which any
// text of such an input fits the run is carried out once; in a smaller one first to see how long its text is.
pub fn custody_run(input: &[u8], out: &mut [u8]) -> usize
    ensures { Fits (run_text input.now) out.old out.new result }
{
    if out.len() / text::LONGEST > input.len() {
        return carry_out_at_once(input, out);
    }
    let needed = carry_out(input, out, false);
    if needed <= out.len() {
        return carry_out(input, out, true);
    }
    needed
}

// The release list, in a buffer that has room for the longest.
pub fn custody_releases(input: &[u8], out: &mut [u8; release_list::ROOM]) -> usize
    ensures { Put out.old 0 (releases_text input.now) out.new result × (result ≤ 12805) }
{
    release_file::releases(input, out)
}
