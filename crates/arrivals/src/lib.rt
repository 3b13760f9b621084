// The order in which jobs arrive: in which they were first held by a correct vault.
#![tactic(auto)]

ghost use Rattle.std.specs.Prelude.{◌≡◌, ◌<◌, ◌≤◌, length};
ghost use Rattle.generations.specs.Generations.{is_at};
ghost use Rattle.ledger.specs.State.{arriving, has_arrived};

use journal::CAPACITY;
use ledger::Ledger;

fn is_arrival(order: &[u8], job: u8, i: usize) -> bool
    requires { i < length order.now }
    ensures { result ≡ is_at order.now job i }
{
    order[i] == job
}

// Whether the job is among the first n of the arrival order. A loop by hand: by `contains`
// each step that changes the ledger has it cleared once more in memory.
fn has_arrived(order: &[u8], n: usize, job: u8) -> bool
    requires { n ≤ length order.now }
    ensures { result ≡ has_arrived order.now n job }
{
    for i in 0..n {
        if is_arrival(order, job, i) {
            return true;
        }
    }
    false
}

// The job goes to the end of the arrival order, unless it is there or the order is full.
pub fn arrive(mut ledger: Ledger, job: u8) -> Ledger
    ensures { result ≡ arriving ledger job }
{
    let n = ledger.arrivals;
    if n >= CAPACITY {
        return ledger;
    }
    if has_arrived(&ledger.order, n, job) {
        return ledger;
    }
    ledger.order[n] = job;
    ledger.arrivals = n + 1;
    ledger
}
