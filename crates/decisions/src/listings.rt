// The answer of a step that lists numbers.
ghost use Rattle.std.specs.Prelude.{◌≡◌};
ghost use Rattle.ledger.specs.Decisions.{listing, unlisted};

use job_sets::JobSet;
use ledger::Listing;
use outcome::{Outcome, Refusal};

// The value is how many are listed.
pub fn list(jobs: JobSet) -> Listing
    ensures { result ≡ listing jobs }
{
    Listing {
        outcome: Ok(jobs.count()),
        members: jobs,
    }
}

pub fn unlist(why: Refusal) -> Listing
    ensures { result ≡ unlisted why }
{
    Listing {
        outcome: Err(why),
        members: JobSet::empty(),
    }
}
