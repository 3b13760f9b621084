// The generator of test loads (docs/LOADS.md): the state advances by a multiplication and an addition modulo 2 to the 64th, and the upper 32
// bits of the new state are drawn.
#![tactic(auto)]

ghost use Rattle.std.specs.Prelude.{◌≡◌, ◌*◌, ◌%◌, ◌^◌};
ghost use Rattle.generator.specs.Generator.{drawn, next};

const MULTIPLIER: u64 = 6364136223846793005;

const INCREMENT: u64 = 1442695040888963407;

// The product modulo 2 to the 64th.
pub fn wrapping_multiply(a: u64, b: u64) -> u64
    ensures { result ≡ (a * b) % 2 ^ 64 }
{
    a.wrapping_mul(b)
}

// The state after this one.
pub fn advance(state: u64) -> u64
    ensures { result ≡ next state }
{
    wrapping_multiply(state, MULTIPLIER).wrapping_add(INCREMENT)
}

// What is drawn from a state: its upper half.
pub fn draw(state: u64) -> u32
    ensures { result ≡ drawn state }
{
    (state >> 32) as u32
}
