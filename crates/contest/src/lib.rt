// Two clients (document 02's desks) whose conflicting jobs want one tape: who can force a win, and whether both could get t signatures.
#![tactic(auto)]

ghost use Rattle.std.specs.Prelude.{◌≡◌, true};
ghost use Rattle.contest.specs.Contest.{is_lawful, prospect_of, both_of, forecast_of};

use outcome::Refusal;

// Who can force a win. Neither: each can stop the other. Second does not arise (`never_second`).
#[derive(Clone, Copy)]
pub enum Prospect {
    First,
    Second,
    Neither,
}

// `both`: whether both jobs could reach t if play went on after a win.
#[derive(Clone, Copy)]
pub struct Outlook {
    pub prospect: Prospect,
    pub both: bool,
}

#[tactic(auto, unfolding(crate::specs::Contest::is_lawful))]
fn is_lawful(n: u8, f: u8, t: u8) -> bool
    ensures { result ≡ is_lawful n f t }
{
    1 <= n && n <= 16 && f <= n && 1 <= t && t <= n
}

#[tactic(auto, using(crate::proofs::Lawful::law), unfolding(crate::specs::Contest::prospect_of, crate::specs::Contest::share_of))]
fn who_can_force(n: u8, f: u8, t: u8) -> Prospect
    requires { is_lawful n f t ≡ true }
    ensures { result ≡ prospect_of n f t }
{
    let correct = n - f;
    if t <= f + (correct + 1) / 2 {
        Prospect::First
    } else {
        Prospect::Neither
    }
}

#[tactic(auto, using(crate::proofs::Lawful::law), unfolding(crate::specs::Contest::both_of))]
fn both_reach(n: u8, f: u8, t: u8) -> bool
    requires { is_lawful n f t ≡ true }
    ensures { result ≡ both_of n f t }
{
    2 * t.saturating_sub(f) <= n - f
}

// n vaults, f of them equivocating, and t signatures to win; 26 where there is no such contest.
#[tactic(auto, unfolding(crate::specs::Contest::forecast_of))]
pub fn forecast(n: u8, f: u8, t: u8) -> Result<Outlook, Refusal>
    ensures { result ≡ forecast_of n f t }
{
    if is_lawful(n, f, t) {
        Ok(Outlook {
            prospect: who_can_force(n, f, t),
            both: both_reach(n, f, t),
        })
    } else {
        Err(Refusal::NoContest)
    }
}
