// Each entry's tightest range, by one formula for inputs and outputs: what its own side and the other leave of it.
#![tactic(auto)]

ghost use Rattle.std.specs.Prelude.{true, ◌≡◌, ◌<◌};
ghost use Rattle.ranges.specs.Tighten.{lower_end, upper_end, tightest_in, tightest_by, can_balance, tightest_of};
ghost use Rattle.ranges.specs.Spans.{Meeting};

use ranges::{Estimate, Range, Span};

// What is missing where all else on its own side is at its most and the other side at its least.
#[tactic(auto, unfolding(ranges::specs::Tighten::lower_end))]
fn lower_end(own: Span, other: Span, range: Range) -> u32
    requires { Meeting own other }
    ensures { result ≡ lower_end own other range }
{
    let missing = (other.least + u64::from(range.highest)).saturating_sub(own.most);
    missing.max(u64::from(range.lowest)) as u32
}

// What there is room for where all else on its own side is at its least and the other side at its most.
#[tactic(auto, unfolding(ranges::specs::Tighten::upper_end))]
fn upper_end(own: Span, other: Span, range: Range) -> u32
    requires { Meeting own other }
    ensures { result ≡ upper_end own other range }
{
    let room = other.most + u64::from(range.lowest) - own.least;
    room.min(u64::from(range.highest)) as u32
}

#[tactic(auto, unfolding(ranges::specs::Tighten::tightest_in))]
fn tightest_in(own: Span, other: Span, range: Range) -> Range
    requires { Meeting own other }
    ensures { result ≡ tightest_in own other range }
{
    Range {
        lowest: lower_end(own, other, range),
        highest: upper_end(own, other, range),
    }
}

// Entry i's own side is what goes in, or what comes out.
#[tactic(auto, unfolding(ranges::specs::Tighten::tightest_by))]
fn tightest_by(inward: Span, outward: Span, i: usize, range: Range) -> Range
    requires { Meeting inward outward × Meeting outward inward }
    ensures { result ≡ tightest_by inward outward i range }
{
    if i < 4 {
        tightest_in(inward, outward, range)
    } else {
        tightest_in(outward, inward, range)
    }
}

// An accession keeps its ranges.
pub fn tightest(e: Estimate) -> [Range; 8]
    requires { can_balance e ≡ true }
    ensures { result ≡ tightest_of e }
{
    let mut ranges = e.ranges;
    if e.kind != 1 {
        return ranges;
    }
    let inward = spans::inward(e);
    let outward = spans::outward(e);
    for i in 0..8 {
        ranges[i] = tightest_by(inward, outward, i, e.ranges[i]);
    }
    ranges
}
