// What the first three draws choose: frames, the faulty vaults, and where rounds begin.
ghost use Rattle.std.specs.Prelude.{◌≡◌, ◌*◌, ◌%◌, ◌<◌, ◌^◌, ◌≤◌};
ghost use Rattle.load.specs.Plans.{Fair, correct_from, correct_of, faulty_of, going_on, plan_with};

use load::Plan;

// x modulo n, where that fits a byte.
pub(crate) fn modulo(x: u32, n: u32) -> u8
    requires { (0 < n) × (n ≤ 255) }
    ensures { (result ≡ x % n) × (result < n) }
{
    (x % n) as u8
}

pub fn choose(n: u8, b: u8, first: u32, second: u32, third: u32) -> Plan
    requires { (n ≤ 16) × (3 * b < n) }
    ensures { (result ≡ plan_with n b first second third) × Fair result }
{
    let start = modulo(second, n as u32 - b as u32 + 1);
    let turn = modulo(third, n as u32);
    Plan {
        n,
        b,
        start,
        turn,
        first,
    }
}

// 2 to the e-th, for sets of at most 16 vaults.
fn power(e: u8) -> u32
    requires { e ≤ 16 }
    ensures { (result ≡ 2 ^ e) × (1 ≤ result) × (result ≤ 65536) }
{
    1u32 << e
}

// The set of the faulty vaults.
pub fn faulty(plan: Plan) -> u16
    requires { Fair plan }
    ensures { result ≡ faulty_of plan }
{
    (power(plan.start + plan.b) - power(plan.start)) as u16
}

// The set of all others.
pub(crate) fn correct(plan: Plan) -> u16
    requires { Fair plan }
    ensures { result ≡ correct_of plan }
{
    (power(plan.n) - 1 - faulty(plan) as u32) as u16
}

// The vault v, or the first correct one after it.
fn going_on(plan: Plan, v: u8) -> u8
    requires { Fair plan }
    ensures { result ≡ going_on plan v }
{
    let end = plan.start + plan.b;
    if v < plan.start {
        return v;
    }
    if end <= v {
        return v;
    }
    if end < plan.n {
        return end;
    }
    0
}

// The correct vault from x on.
pub(crate) fn correct_from(plan: Plan, x: u32) -> u8
    requires { Fair plan }
    ensures { result ≡ correct_from plan x }
{
    going_on(plan, modulo(x, plan.n as u32))
}
