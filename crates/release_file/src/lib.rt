// A run file in, its release list out: the file is carried out to its end, and the tapes that are then free are listed.
#![tactic(auto)]

mod unread;

ghost use Rattle.std.specs.Prelude.{◌≤◌};
ghost use Rattle.release_file.specs.Releases.{releases_text};
ghost use Rattle.digits.specs.Digits.{Put};

use outcome::Refusal;

// A file that refusal 1 or 2 turns back or cuts short gets that line and no list.
pub fn releases(input: &[u8], out: &mut [u8; release_list::ROOM]) -> usize
    ensures { Put out.old 0 (releases_text input.now) out.new result × (result ≤ 12805) }
{
    if !header::opens(input) {
        return text::write_line(out, 0, 0, Err(Refusal::Settings));
    }
    match unread::first(input) {
        Some(first) => text::write_line(out, 0, first, Err(Refusal::Unreadable)),
        None => {
            let mut journal = [0u8; run::JOURNAL];
            let ledger = whole_run::run_out(input, &mut journal);
            release_list::list(ledger, &journal, out).written
        }
    }
}
