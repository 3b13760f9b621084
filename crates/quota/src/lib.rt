// A client's quota at a vault: the last fifteen counted requests as a number, the newest in the lowest bit, set where it brought a new signature. Document 02
// calls a client a desk.
#![tactic(auto)]

ghost use Rattle.std.specs.Prelude.{◌≡◌, ◌<◌};
ghost use Rattle.quota.specs.Quota.{history_place, is_client, is_spent, remembered};

// Check 22.
#[tactic(auto, unfolding(crate::specs::Quota::is_client))]
pub fn is_client(client: u8) -> bool
    ensures { result ≡ is_client client }
{
    client < 8
}

// Check 23: whether four or more of the requests brought a new signature.
#[tactic(auto, unfolding(crate::specs::Quota::is_spent))]
pub fn is_spent(history: u16) -> bool
    ensures { result ≡ is_spent history }
{
    sets::vaults::size(history) >= 4
}

// The history after one request more; the oldest of the fifteen is forgotten.
#[tactic(auto, unfolding(crate::specs::Quota::remembered))]
pub fn remember(history: u16, fresh: bool) -> u16
    ensures { result ≡ remembered history fresh }
{
    let older = history % 16384 * 2;
    if fresh { older + 1 } else { older }
}

// Where a client's history at a vault stands among all histories.
#[tactic(auto, unfolding(crate::specs::Quota::history_place))]
pub fn place(vault: u8, client: u8) -> usize
    ensures { (result ≡ history_place vault client) × (result < 128) }
{
    8 * usize::from(vault % 16) + usize::from(client % 8)
}
