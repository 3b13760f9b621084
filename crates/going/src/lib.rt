// The loop of the run: step by step, its ledger beside it, so that a step that changes nothing leaves the ledger where it is. `run::advance` and `run::turn`
// are this loop.
#![tactic(auto)]

ghost use Rattle.std.specs.Prelude.{◌≤◌};
ghost use Rattle.progress.specs.Coming.{CarriedOn, standing};
ghost use Rattle.progress.specs.Pieces.{Going};
ghost use Rattle.progress.specs.Turns.{Holds};

use job_sets::JobSet;
use kinds::View;
use ledger::Ledger;
use progress::{Cursor, Turned};
use questions::Books;

// Carries out steps up to the one with the number `last`, while there are more and `out` has room for the longest text of one.
pub fn carry_on(
    mut ledger: Ledger,
    mut c: Cursor,
    mut named: Option<JobSet>,
    last: u32,
    memo: &mut [u8],
    journal: &mut [u8],
    numbers: &mut [u16],
    sets: &mut [u64],
    records: &mut [u16],
    input: &[u8],
    out: &mut [u8],
) -> Turned
    requires { Going input.now (standing ledger c) journal.old numbers.old sets.old records.old memo.old
        × Holds ledger journal.old named
        × (c.count ≤ last) }
    ensures { CarriedOn input.now (standing ledger c) last journal.old out.old result
        journal.new numbers.new sets.new records.new memo.new out.new }
{
    while progress::goes_on(c, last, input.len(), out.len()) {
        let s = reading::step_at(ledger.settings.version, input, c.pos, c.count + 1);
        if s.wide {
            let books = Books {
                settings: ledger.settings,
                booked: ledger.booked,
                arrivals: ledger.arrivals,
                vaults: ledger.vaults,
                votes: ledger.votes,
                named,
            };
            let order = &ledger.order;
            let r = surveys::survey(s, books, order, numbers, sets, journal, memo, out, c.at);
            c = progress::surveyed(s, r);
            named = r.named;
            continue;
        }
        let view = View {
            settings: ledger.settings,
            booked: ledger.booked,
            state: ledger.vaults[(s.vault % 16) as usize],
            votes: ledger.votes[(s.job % 128) as usize],
            history: ledger.histories[s.place % 128],
            next: ledger.next,
            seen: ledger.seen,
            turn: ledger.vaults[(ledger.next % 16) as usize],
        };
        let r = steps::carry_out(s, view, numbers, sets, records, journal, input, out, c.at);
        let change = r.change;
        c = progress::carried_out(s, r);
        if changes::is_nothing(change) {
            continue;
        }
        ledger = changes::apply(ledger, change, s.vault, s.job);
        let votes = ledger.votes[(s.job % 128) as usize];
        named = naming::still(named, view.booked, view.votes, ledger.booked, votes);
    }
    progress::handed(ledger, c, named)
}
