// Each of these kinds is handed what it looks at; none changes anything but the memo.
ghost use Rattle.std.specs.Prelude.{◌≡◌, ◌≤◌};
ghost use Rattle.index.specs.Index.{IndexedEntries};
ghost use Rattle.generations.specs.Memo.{Ready};
ghost use Rattle.questions.specs.Answers.{Answered, aged, alone, is_listing, naming, required, surveyed};

use crate::Books;
use job_sets::JobSet;
use ledger::Listing;
use outcome::{Outcome, Refusal};
use reading::Step;
use runfile::Kind;

// Nothing is listed.
fn alone(outcome: Outcome) -> Listing
    ensures { result ≡ alone outcome }
{
    Listing {
        outcome,
        members: JobSet::empty(),
    }
}

// Kind 8: what it answers; it changes nothing but the memo.
fn age(
    books: Books,
    order: &[u8],
    numbers: &[u16],
    sets: &[u64],
    journal: &[u8],
    memo: &mut [u8],
    job: u8,
) -> Listing
    requires { (books.settings.n ≤ 16)
        × Ready books.settings.version journal.now books.booked numbers.now sets.now order.now books.arrivals memo.old }
    ensures { Answered books order.now journal.now memo.new
        (alone (aged books order.now journal.now job).outcome) result }
{
    let j = job as usize;
    let settings = books.settings;
    if journal::is_booked(settings.version, journal, books.booked, j) {
        let vaults = books.vaults;
        let decision = dependencies::generations(
            settings,
            vaults,
            order,
            books.arrivals,
            numbers,
            sets,
            journal,
            books.booked,
            memo,
            j,
        );
        let outcome = decision.outcome;
        return alone(outcome);
    }
    alone(Err(Refusal::NotBooked))
}

// Kind 11.
fn require(
    books: Books,
    numbers: &[u16],
    sets: &[u64],
    journal: &[u8],
    vault: u8,
    job: u8,
) -> Listing
    requires { (books.settings.n ≤ 16) × IndexedEntries books.settings.version journal.now books.booked numbers.now sets.now }
    ensures { result ≡ required books journal.now vault job }
{
    let j = job as usize;
    let settings = books.settings;
    let vaults = books.vaults;
    let at = (vault % 16) as usize;
    let state = vaults[at];
    dependencies::dependencies(
        kinds::gate(settings, books.booked, journal, vault, false, j),
        settings,
        vaults,
        state,
        numbers,
        sets,
        settings.version,
        journal,
        books.booked,
        j,
    )
}

fn is_listing(kind: Kind) -> bool
    ensures { result ≡ is_listing kind }
{
    matches!(kind, Kind::Dependencies)
}

// Kind 13.
fn name(version: u16, booked: usize, journal: &[u8], named: JobSet) -> Listing
    ensures { result ≡ naming version booked journal.now named }
{
    if journal::is_whole(version, journal, booked) {
        return decisions::list(named);
    }
    decisions::unlist(Refusal::NotBooked)
}

// What a step answers and lists that looks at all vaults; it changes nothing but the memo.
pub fn look(
    step: Step,
    books: Books,
    named: JobSet,
    order: &[u8],
    numbers: &[u16],
    sets: &[u64],
    journal: &[u8],
    memo: &mut [u8],
) -> Listing
    requires { (books.settings.n ≤ 16)
        × IndexedEntries books.settings.version journal.now books.booked numbers.now sets.now
        × Ready books.settings.version journal.now books.booked numbers.now sets.now order.now books.arrivals memo.old }
    ensures { Answered books order.now journal.now memo.new
        (surveyed books named order.now journal.now step.kind step.vault step.job) result }
{
    let kind = step.kind;
    if is_listing(kind) {
        return require(books, numbers, sets, journal, step.vault, step.job);
    }
    if naming::is_naming(kind) {
        let settings = books.settings;
        return name(settings.version, books.booked, journal, named);
    }
    age(books, order, numbers, sets, journal, memo, step.job)
}
