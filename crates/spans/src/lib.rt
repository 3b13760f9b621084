// What can go into a migration and what can come out of it, and checks 24 and 25.
#![tactic(auto)]

ghost use Rattle.std.specs.Prelude.{◌≡◌, ◌+◌, ◌≤◌, ◌<◌};
ghost use Rattle.base.specs.Search.{FirstFound};
ghost use Rattle.ranges.specs.Ranges.{low, high};
ghost use Rattle.ranges.specs.Tighten.{span_of, inflow, outflow, meets, can_balance, is_reversed, order_of, balance_of};

use outcome::{Refusal, Verdict};
use ranges::{Estimate, Range, Span};

// The ends of four entries' ranges from `half` on, added up, with `extra`.
fn half_span(e: Estimate, half: usize, extra: u64) -> Span
    requires { (half ≤ 4) × (extra ≤ 4294967295) }
    ensures value { result ≡ span_of (low e) (high e) half extra }
    ensures least_bound { (result.least ≤ 21474836475) × (result.most ≤ 21474836475) }
{
    let mut least = extra;
    let mut most = extra;
    for i in 0..4 {
        let Range { lowest, highest } = e.ranges[half + i];
        least += u64::from(lowest);
        most += u64::from(highest);
    }
    Span { least, most }
}

#[tactic(auto, unfolding(ranges::specs::Tighten::inflow))]
pub fn inward(e: Estimate) -> Span
    ensures value { result ≡ inflow e }
    ensures least_bound { (result.least ≤ 21474836475) × (result.most ≤ 21474836475) }
{
    half_span(e, 0, 0)
}

#[tactic(auto, unfolding(ranges::specs::Tighten::outflow))]
pub fn outward(e: Estimate) -> Span
    ensures value { result ≡ outflow e }
    ensures least_bound { (result.least ≤ 21474836475) × (result.most ≤ 21474836475) }
{
    half_span(e, 4, u64::from(e.trimmed))
}

#[tactic(auto, unfolding(ranges::specs::Tighten::meets))]
fn meet(a: Span, b: Span) -> bool
    ensures { result ≡ meets a b }
{
    a.least <= b.most && b.least <= a.most
}

#[tactic(auto, unfolding(ranges::specs::Tighten::can_balance))]
fn can_balance(e: Estimate) -> bool
    ensures { result ≡ can_balance e }
{
    e.kind != 1 || meet(inward(e), outward(e))
}

#[tactic(auto, unfolding(ranges::specs::Tighten::is_reversed))]
fn is_reversed(e: Estimate, i: usize) -> bool
    requires { i < 8 }
    ensures { result ≡ is_reversed e i }
{
    e.ranges[i].highest < e.ranges[i].lowest
}

// The first entry whose lowest count exceeds its highest.
fn first_reversed(e: Estimate) -> Option<u8>
    ensures { FirstFound 8 (is_reversed e) result }
{
    (0..8).find(
        |&i|
            requires { i < 8 }
        { is_reversed(e, usize::from(i)) },
    )
}

// Check 24.
#[tactic(auto, unfolding(ranges::specs::Tighten::order_of))]
pub fn check_order(e: Estimate) -> Verdict
    ensures { result ≡ order_of e }
{
    match first_reversed(e) {
        Some(entry) => Err(Refusal::Reversed(entry)),
        None => Ok(()),
    }
}

// Check 25.
#[tactic(auto, unfolding(ranges::specs::Tighten::balance_of))]
pub fn check_balance(e: Estimate) -> Verdict
    ensures { result ≡ balance_of e }
{
    if can_balance(e) {
        Ok(())
    } else {
        Err(Refusal::NoneBalances)
    }
}
