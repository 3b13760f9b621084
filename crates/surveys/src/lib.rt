// A step of a run file that looks at all vaults: it is answered and its text written. It changes nothing in the ledger.
#![tactic(auto)]

ghost use Rattle.std.specs.Prelude.{◌+◌, ◌<◌, ◌≤◌, length};
ghost use Rattle.index.specs.Index.{IndexedEntries};
ghost use Rattle.generations.specs.Memo.{Ready};
ghost use Rattle.naming.specs.Kept.{Right};
ghost use Rattle.surveys.specs.Surveyed.{Surveyed};
ghost use Rattle.text.specs.Text.{longest_text};

use job_sets::JobSet;
use progress::Looked;
use questions::Books;
use reading::Step;

pub fn survey(
    step: Step,
    books: Books,
    order: &[u8],
    numbers: &[u16],
    sets: &[u64],
    journal: &[u8],
    memo: &mut [u8],
    out: &mut [u8],
    at: usize,
) -> Looked
    requires { (books.settings.n ≤ 16)
        × IndexedEntries books.settings.version journal.now books.booked numbers.now sets.now
        × Ready books.settings.version journal.now books.booked numbers.now sets.now order.now books.arrivals memo.old
        × Right books.settings books.votes journal.now books.booked books.named
        × (step.number < 1000000)
        × (at + longest_text ≤ length out.old) }
    ensures { Surveyed books step at order.now journal.now out.old
        memo.new out.new result }
{
    let kind = step.kind;
    let settings = books.settings;
    let votes = books.votes;
    let kept = books.named;
    let booked = books.booked;
    let named = naming::named(kept, kind, settings, votes, numbers, sets, journal, booked);
    let vaults = named.unwrap_or(JobSet::empty());
    let listing = questions::look(step, books, vaults, order, numbers, sets, journal, memo);
    let outcome = listing.outcome;
    let members = listing.members;
    let end = text::write_text(out, at, step.number, outcome, members);
    Looked {
        outcome,
        members,
        named,
        at: end,
    }
}
