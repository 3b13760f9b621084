// The draw: how likely a random quorum fails where some vaults can't sign.
#![tactic(auto)]

mod triangle;

ghost use Rattle.std.specs.Prelude.{◌≡◌, ◌<◌, ◌≤◌};
ghost use Rattle.binomials.specs.Draw.{draw_of, thousandths};

use federation::Settings;
use outcome::{Outcome, Refusal};
use std::cmp::Ordering;

// An exact half goes to the even neighbour.
#[tactic(auto, unfolding(binomials::specs::Draw::thousandths, binomials::specs::Draw::to_even))]
fn thousandths(part: u64, whole: u64) -> u64
    requires { (0 < whole) × (part ≤ whole) × (whole < 20923000000000) }
    ensures { result ≡ thousandths part whole }
{
    let parts = 1000 * part;
    let down = parts / whole;
    let over = 2 * (parts % whole);
    match over.cmp(&whole) {
        Ordering::Less => down,
        Ordering::Greater => down + 1,
        Ordering::Equal => down + down % 2,
    }
}

// The chance in thousandths; 17 where more vaults are away than there are, and 1 where the settings are not lawful.
pub fn draw(settings: Settings, u: u8) -> Outcome
    ensures { result ≡ draw_of settings u }
{
    if !settings.is_lawful() {
        return Err(Refusal::Settings);
    }
    let n = settings.n;
    if n < u {
        return Err(Refusal::TooManyAbsent);
    }
    let k = settings.threshold() as usize;
    let all = triangle::choose(n as usize, k);
    let good = triangle::choose((n - u) as usize, k);
    Ok(thousandths(all - good, all) as u32)
}
