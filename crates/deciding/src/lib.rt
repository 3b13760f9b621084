// What a step decides that looks at one vault, by its kind.
#![tactic(auto)]

ghost use Rattle.std.specs.Prelude.{◌≡◌};
ghost use Rattle.index.specs.Index.{Indexed};
ghost use Rattle.runfile.specs.Steps.{command_in};
ghost use Rattle.reading.specs.Reading.{Asked};
ghost use Rattle.kinds.specs.Decided.{decided_by};

use kinds::View;
use ledger::Decision;
use outcome::Refusal;
use reading::Step;
use runfile::Kind;
use vaults::Column;

// The index is the journal's.
pub fn decide(
    step: Step,
    view: View,
    numbers: &[u16],
    sets: &[u64],
    records: &[u16],
    journal: &[u8],
    input: &[u8],
) -> Decision
    requires { Asked view.settings.version input.now step
        × Indexed view.settings.version journal.now view.booked numbers.now sets.now records.now }
    ensures { result ≡ decided_by view journal.now (command_in view.settings.version step.kind input.now step.at) }
{
    let kind = step.kind;
    let settings = view.settings;
    let version = settings.version;
    match kind {
        Kind::Propose => proposals::propose(
            records,
            version,
            journal,
            view.booked,
            fields::record_at(version, input, step.at),
        ),
        Kind::Preflight => kinds::preflight(step, view, numbers, sets, journal),
        Kind::Commit => kinds::commit(step, view, journal, input),
        Kind::FaultySign => kinds::vote(step, view, journal, Column::Signatures),
        Kind::FaultyAcknowledge => kinds::vote(step, view, journal, Column::Acknowledgements),
        Kind::Show => kinds::show(step, view, journal),
        Kind::Draw => kinds::draw(settings, step.job),
        Kind::Generations => decisions::refuse(Refusal::NotHeld),
        Kind::Snapshot => decisions::snapshot(settings, view.next, view.seen, view.turn.held),
        Kind::Release => kinds::release(step, view, numbers, sets, journal, input),
        Kind::Dependencies => decisions::refuse(Refusal::NotHeld),
        Kind::ClientPreflight => kinds::client_preflight(step, view, numbers, sets, journal, input),
        Kind::Equivocating => decisions::refuse(Refusal::NotHeld),
        Kind::Unknown => decisions::refuse(Refusal::Unreadable),
    }
}
