// The steps of a load.
ghost use Rattle.std.specs.Prelude.{◌≡◌, ◌<◌, ◌≤◌};
ghost use Rattle.load.specs.Plans.{Fair};
ghost use Rattle.load.specs.Steps.{asking, delivering, step_for};

use crate::plans;
use load::{Plan, Step};

// Step k of the round whose main job is given, up to the preflight of the rival.
fn asking(plan: Plan, main: u8, k: u8, draw: u32) -> Step
    requires { Fair plan × (main ≤ 30) × (k < 29) }
    ensures { result ≡ asking plan main k draw }
{
    match k {
        0..=9 => Step::Propose(main + k),
        10..=25 => {
            let v = plans::correct_from(plan, plan.turn as u32 + k as u32);
            Step::Preflight(v, main)
        }
        26..=27 => Step::FaultySign(plan.start, main + (k - 26)),
        _ => {
            let v = plans::correct_from(plan, draw);
            Step::Preflight(v, main + 1)
        }
    }
}

// The commits and what follows them.
fn delivering(plan: Plan, main: u8, k: u8, draw: u32) -> Step
    requires { Fair plan × (main ≤ 30) }
    ensures { result ≡ delivering plan main k draw }
{
    match k {
        0..=29 => {
            let v = plans::correct_from(plan, draw);
            Step::Commit(v, main, (draw / 65536) as u16)
        }
        30..=45 => {
            let v = plans::correct_from(plan, plan.turn as u32 + k as u32);
            let signers = plans::correct(plan);
            Step::Commit(v, main, signers)
        }
        46 => {
            let past = plans::modulo(draw, plan.b as u32 + 1);
            Step::FaultyAcknowledge(plan.start + past, main)
        }
        47 => {
            let job = plans::modulo(draw, main as u32 + 10);
            Step::Show(job)
        }
        48 => {
            let absent = plans::modulo(draw, plan.n as u32 + 2);
            Step::Draw(absent)
        }
        _ => {
            let round = plans::modulo(draw, main as u32 / 10 + 1);
            Step::Generations(10 * round)
        }
    }
}

// Step i of the load.
pub fn nth(plan: Plan, i: u32, draw: u32) -> Step
    requires { Fair plan × (i < 200) }
    ensures { result ≡ step_for plan i draw }
{
    let main = (i / 50 * 10) as u8;
    let k = (i % 50) as u8;
    if k < 29 {
        return asking(plan, main, k, draw);
    }
    delivering(plan, main, k, draw)
}
