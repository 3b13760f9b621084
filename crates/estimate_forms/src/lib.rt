// The form of an estimate: checks 6 to 8 of the job that has the lowest counts as its frames. Check 9 is not asked of it: 25 stands in its place.
#![tactic(auto)]

ghost use Rattle.std.specs.Prelude.{◌≡◌, ◌<◌};
ghost use Rattle.base.specs.Search.{all_below};
ghost use Rattle.ranges.specs.Form.{lowest_job, is_bounded, without_balance, form_of};

use outcome::{Refusal, Verdict};
use ranges::Estimate;
use record::{Entry, Job};
use std::array;

fn lowest_job(e: Estimate) -> Job
    ensures { result ≡ lowest_job e }
{
    let entries = array::from_fn(
        |i|
            requires { i < 8 }
        {
            Entry {
                label: e.labels[i],
                frames: e.ranges[i].lowest,
            }
        },
    );
    Job {
        kind: e.kind,
        drive: e.drive,
        inputs: e.inputs,
        outputs: e.outputs,
        entries,
        trimmed: e.trimmed,
    }
}

// An unused entry's highest is 0.
#[tactic(auto, unfolding(ranges::specs::Form::is_bounded))]
fn is_bounded(e: Estimate, job: Job, i: usize) -> bool
    requires { i < 8 }
    ensures { result ≡ is_bounded e job i }
{
    record::used(job, i) || e.ranges[i].highest == 0
}

fn all_bounded(e: Estimate, job: Job) -> bool
    ensures { result ≡ all_below 8 (is_bounded e job) }
{
    (0..8).all(
        |i|
            requires { i < 8 }
        { is_bounded(e, job, i) },
    )
}

fn without_balance(verdict: Verdict) -> Verdict
    ensures { result ≡ without_balance verdict }
{
    match verdict {
        Err(why) if why.number() == 9 => Ok(()),
        _ => verdict,
    }
}

#[tactic(auto, unfolding(ranges::specs::Form::form_of))]
pub fn check(e: Estimate) -> Verdict
    ensures { result ≡ form_of e }
{
    let job = lowest_job(e);
    if all_bounded(e, job) {
        without_balance(examination::check(job))
    } else {
        Err(Refusal::Malformed)
    }
}
