// A test load from ten bytes (docs/LOADS.md), written as a run file of 200 steps.
#![tactic(auto)]

ghost use Rattle.std.specs.Prelude.{◌≡◌, ◌*◌, ◌<◌, ◌≤◌, length};
ghost use Rattle.codec.specs.Codec.{le_at};
ghost use Rattle.load.specs.Loads.{answer_of, is_request, load_bytes, steps_bytes};
ghost use Rattle.load.specs.Plans.{Fair};
ghost use Rattle.digits.specs.Digits.{Put};

use federation::Settings;
use load::Plan;
use outcome::{Outcome, Refusal};

// How many bytes are read: a seed of eight, n and b.
pub const REQUEST: usize = 10;

const STEPS: usize = 200;

// The header has nine bytes, and no step has more than 101.
pub const ROOM: usize = 20209;

// The first eight bytes as a number, the low byte first.
fn seed_of(input: &[u8]) -> u64
    requires { length input.now ≡ 10 }
    ensures { result ≡ le_at input.now 0 8 }
{
    codec::number_at(input, 0, 8)
}

// Ten bytes, of which the last two are settings that a run file may have.
fn is_request(input: &[u8]) -> bool
    ensures { result ≡ is_request input.now }
{
    if input.len() != REQUEST {
        return false;
    }
    let settings = Settings {
        n: input[8],
        b: input[9],
        faulty: 0,
        version: 1,
    };
    settings.is_lawful()
}

// All steps from the state after the third draw on, each with a draw of its own.
fn put_steps(out: &mut [u8], plan: Plan, state: u64) -> usize
    requires { Fair plan × (length out.old ≡ 20209) }
    ensures { Put out.old 9 (steps_bytes plan 200 0 state) out.new result × (result ≤ 20209) }
{
    let mut at: usize = 9;
    let mut now = state;
    for i in 0..STEPS {
        now = generator::advance(now);
        at = load_steps::put(
            out,
            at,
            plan.first,
            load_plans::nth(plan, i as u32, generator::draw(now)),
        );
    }
    at
}

fn put_load(out: &mut [u8], seed: u64, n: u8, b: u8) -> usize
    requires { (n ≤ 16) × (3 * b < n) × (length out.old ≡ 20209) }
    ensures { Put out.old 0 (load_bytes seed n b) out.new result × (result ≤ 20209) }
{
    let one = generator::advance(seed);
    let two = generator::advance(one);
    let three = generator::advance(two);
    let plan = load_plans::choose(
        n,
        b,
        generator::draw(one),
        generator::draw(two),
        generator::draw(three),
    );
    load_steps::put_header(out, n, b, load_plans::faulty(plan));
    put_steps(out, plan, three)
}

// The load, or the line of refusal 1 where the input asks for none; how many bytes that is.
pub fn load(input: &[u8], out: &mut [u8; 20209]) -> usize
    ensures { Put out.old 0 (answer_of input.now) out.new result × (result ≤ 20209) }
{
    if is_request(input) {
        return put_load(out, seed_of(input), input[8], input[9]);
    }
    text::write_line(out, 0, 0, Err(Refusal::Settings))
}
