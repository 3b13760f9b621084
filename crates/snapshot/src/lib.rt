// A snapshot of what the vaults hold, taken vault by vault while jobs go on: what a visit adds to the jobs seen in this round, and which vault comes next.
#![tactic(auto)]

ghost use Rattle.std.specs.Prelude.{◌≡◌};
ghost use Rattle.snapshot.specs.Snapshot.{following, seen_after, seen_before, visible};

use federation::Settings;
use job_sets::JobSet;

// The vault after this one; after the last, vault 0.
#[tactic(auto, unfolding(crate::specs::Snapshot::following))]
pub fn following(n: u8, next: u8) -> u8
    ensures { result ≡ following n next }
{
    if n > 0 && next < n - 1 { next + 1 } else { 0 }
}

#[tactic(auto, unfolding(crate::specs::Snapshot::visible))]
fn visible(settings: Settings, held: JobSet, vault: u8) -> JobSet
    ensures { result ≡ visible settings held vault }
{
    if sets::vaults::has(settings.faulty, vault) {
        JobSet::empty()
    } else {
        held
    }
}

// The jobs seen in this round before the visit to the next vault: a round starts with none.
#[tactic(auto, unfolding(crate::specs::Snapshot::seen_before))]
pub fn seen_before(next: u8, seen: JobSet) -> JobSet
    ensures { result ≡ seen_before next seen }
{
    if next == 0 { JobSet::empty() } else { seen }
}

// The jobs seen in this round once the vault, which holds `held`, has been visited.
#[tactic(auto, unfolding(crate::specs::Snapshot::seen_after))]
pub fn seen_after(settings: Settings, next: u8, seen: JobSet, held: JobSet) -> JobSet
    ensures { result ≡ seen_after settings next seen held }
{
    seen_before(next, seen).union(visible(settings, held, next))
}
