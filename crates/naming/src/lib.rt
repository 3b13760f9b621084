// The vaults that kind 13 names, found when a step asks for them and kept until what they depend on changes.
#![tactic(auto)]

ghost use Rattle.std.specs.Prelude.{◌≡◌};
ghost use Rattle.index.specs.Index.{IndexedEntries};
ghost use Rattle.naming.specs.Kept.{Found, Right, Still, is_naming};

use federation::Settings;
use job_sets::JobSet;
use runfile::Kind;
use vaults::Votes;

// The kind that asks for them.
pub fn is_naming(kind: Kind) -> bool
    ensures { result ≡ is_naming kind }
{
    matches!(kind, Kind::Equivocating)
}

// The vaults that equivocate, where they are known. They are known where the kind asks for them.
#[tactic(auto, using(crate::proofs::Laws::names))]
pub fn named(
    kept: Option<JobSet>,
    kind: Kind,
    settings: Settings,
    votes: [Votes; 128],
    numbers: &[u16],
    sets: &[u64],
    journal: &[u8],
    booked: usize,
) -> Option<JobSet>
    requires { IndexedEntries settings.version journal.now booked numbers.now sets.now × Right settings votes journal.now booked kept }
    ensures { Found settings votes journal.now booked kind result }
{
    if is_naming(kind) && kept.is_none() {
        return Some(equivocation::equivocating(settings, votes, numbers, sets, journal, booked));
    }
    kept
}

// After a change: they stay known where no record was booked and the signatures on the job that the step looked at are those before.
#[tactic(auto, using(crate::proofs::Laws::names))]
pub fn still(
    kept: Option<JobSet>,
    before: usize,
    earlier: Votes,
    booked: usize,
    votes: Votes,
) -> Option<JobSet>
    ensures { Still kept before earlier.signatures booked votes.signatures result }
{
    if before == booked && earlier.signatures == votes.signatures {
        return kept;
    }
    None
}
