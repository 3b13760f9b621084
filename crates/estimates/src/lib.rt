// An estimate is checked and tightened (document 02, M-110): whether some choice of counts balances, and each entry's tightest range.
#![tactic(auto)]

ghost use Rattle.std.specs.Prelude.{◌≡◌};
ghost use Rattle.ranges.specs.Tighten.{first_failing, checks_of, tighten_of};

use outcome::Verdict;
use ranges::{Estimate, Tightened};

fn first_failing(earlier: Verdict, later: Verdict) -> Verdict
    ensures { result ≡ first_failing earlier later }
{
    earlier?;
    later
}

// The first of checks 6 to 8, 24 and 25 that the estimate fails.
fn check(e: Estimate) -> Verdict
    ensures { result ≡ checks_of e }
{
    let form = estimate_forms::check(e);
    let order = spans::check_order(e);
    let balance = spans::check_balance(e);
    first_failing(form, first_failing(order, balance))
}

pub fn tighten(e: Estimate) -> Tightened
    ensures { result ≡ tighten_of e }
{
    match check(e) {
        Err(why) => {
            let ranges = e.ranges;
            Tightened {
                outcome: Err(why),
                ranges,
            }
        }
        Ok(()) => {
            let ranges = tightening::tightest(e);
            Tightened {
                outcome: Ok(0),
                ranges,
            }
        }
    }
}
