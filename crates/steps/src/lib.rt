// A step of a run file that looks at one vault: it is decided, its text written, and its record stored. The ledger's own change is left to the run, which keeps
// the journal and its index, and knows what they require.
#![tactic(auto)]

ghost use Rattle.std.specs.Prelude.{◌+◌, ◌<◌, ◌≤◌, length};
ghost use Rattle.index.specs.Index.{Indexed};
ghost use Rattle.reading.specs.Reading.{Asked};
ghost use Rattle.steps.specs.Turned.{CarriedOut};
ghost use Rattle.text.specs.Text.{longest_text};

use kinds::View;
use progress::Told;
use reading::Step;

pub fn carry_out(
    step: Step,
    view: View,
    numbers: &mut [u16],
    sets: &mut [u64],
    records: &mut [u16],
    journal: &mut [u8],
    input: &[u8],
    out: &mut [u8],
    at: usize,
) -> Told
    requires { Asked view.settings.version input.now step
        × Indexed view.settings.version journal.old view.booked numbers.old sets.old records.old
        × (step.number < 1000000)
        × (at + longest_text ≤ length out.old) }
    ensures { CarriedOut input.now step view at journal.old out.old result
        journal.new numbers.new sets.new records.new out.new }
{
    let decision = deciding::decide(
        step,
        view,
        &numbers[..],
        &sets[..],
        &records[..],
        &journal[..],
        input,
    );
    let change = decision.change;
    let outcome = decision.outcome;
    let end = text::write_line(out, at, step.number, outcome);
    let settings = view.settings;
    storing::store(
        change,
        numbers,
        sets,
        records,
        settings.version,
        journal,
        view.booked,
        input,
        step.at,
    );
    Told {
        change,
        outcome,
        at: end,
    }
}
