// How many migrations lie between a job and the accessions that its tapes come from.
#![tactic(auto)]

ghost use Rattle.std.specs.Prelude.{◌≡◌, ◌+◌, ◌<◌, ◌≤◌, get_or, length};
ghost use Rattle.base.specs.Search.{FirstFound};
ghost use Rattle.codec.specs.Codec.{place_of, record_size};
ghost use Rattle.journal.specs.Journal.{job_at};
ghost use Rattle.index.specs.Places.{slot_job};
ghost use Rattle.generations.specs.Generations.{age_in, along, generation_at, is_at};
ghost use Rattle.generations.specs.Memo.{FirstAt, Input, Memo, Ready, from_input, inputs_of, is_maker};

use job_sets::JobSet;

// How many inputs a booked job has, read from its record where it stands.
fn inputs(version: u16, journal: &[u8], job: usize) -> usize
    requires { place_of version job + record_size version ≤ length journal.now }
    ensures { result ≡ inputs_of (slot_job version journal.now job) }
{
    usize::from(codec::inputs_of(journal::slot(version, journal, job))).min(4)
}

// The first of p positions whose job is one of the makers.
fn creator(order: &[u8], makers: JobSet, p: usize) -> Option<usize>
    requires { p ≤ length order.now }
    ensures { FirstFound p (is_maker order.now makers) result }
{
    order[..p]
        .iter()
        .position(|job| makers.has(usize::from(*job)))
}

// The generations at position p, the first of its job. memo[k] is 0, or one more than the generations of job k, so that each
// job's are found once: without it the calls would double along the order. `order` has the arrived jobs alone.
#[cycle(generation_parent)]
fn generation(
    version: u16,
    journal: &[u8],
    booked: usize,
    numbers: &[u16],
    sets: &[u64],
    order: &[u8],
    memo: &mut [u8],
    p: usize,
) -> u8
    requires ready { Ready version journal.now booked numbers.now sets.now order.now (length order.now) memo.old }
    requires first_at { FirstAt order.now (length order.now) (get_or order.now p 0) p }
    ensures value { result ≡ generation_at (job_at version journal.now booked) (along order.now) p }
    ensures memo { Memo (job_at version journal.now booked) order.now (length order.now) memo.new }
{
    let job = usize::from(order[p]);
    if job >= booked {
        return 0;
    }
    let known = memo[job];
    if known > 0 {
        return known - 1;
    }
    let count = inputs(version, journal, job);
    let mut most: u8 = 0;
    for i in 0..count {
        let next = parent(
            version, journal, booked, numbers, sets, order, memo, p, job, i,
        );
        most = most.max(next);
    }
    memo[job] = most + 1;
    most
}

// One more than the generations of the job that made input i of the job at p.
#[cycle(generation_parent)]
fn parent(
    version: u16,
    journal: &[u8],
    booked: usize,
    numbers: &[u16],
    sets: &[u64],
    order: &[u8],
    memo: &mut [u8],
    p: usize,
    job: usize,
    i: usize,
) -> u8
    requires ready { Ready version journal.now booked numbers.now sets.now order.now (length order.now) memo.old }
    requires input { Input version journal.now booked order.now p job i }
    ensures value { result ≡ from_input (job_at version journal.now booked) (along order.now) p i }
    ensures memo { Memo (job_at version journal.now booked) order.now (length order.now) memo.new }
{
    let makers = index::makers(numbers, sets, job, i);
    match creator(order, makers, p) {
        Some(q) => generation(version, journal, booked, numbers, sets, order, memo, q) + 1,
        None => 1,
    }
}

// The first position at which the job stands.
fn position(order: &[u8], job: usize) -> Option<usize>
    ensures { FirstFound (length order.now) (is_at order.now job) result }
{
    order.iter().position(|one| usize::from(*one) == job)
}

// As age, for an order that has the arrived jobs alone.
fn age_along(
    version: u16,
    journal: &[u8],
    booked: usize,
    numbers: &[u16],
    sets: &[u64],
    order: &[u8],
    memo: &mut [u8],
    job: usize,
) -> u8
    requires { Ready version journal.now booked numbers.now sets.now order.now (length order.now) memo.old }
    ensures value { result ≡ age_in (job_at version journal.now booked) order.now (length order.now) job }
    ensures memo { Memo (job_at version journal.now booked) order.now (length order.now) memo.new }
{
    match position(order, job) {
        Some(p) => generation(version, journal, booked, numbers, sets, order, memo, p),
        None => 0,
    }
}

// The generations of a job that is among the first `arrivals` of the order, 0 of one that is not. A job whose generations the
// memo has is answered by one load.
pub fn age(
    version: u16,
    journal: &[u8],
    booked: usize,
    numbers: &[u16],
    sets: &[u64],
    order: &[u8],
    arrivals: usize,
    memo: &mut [u8],
    job: usize,
) -> u32
    requires { Ready version journal.now booked numbers.now sets.now order.now arrivals memo.old }
    ensures value { result ≡ age_in (job_at version journal.now booked) order.now arrivals job }
    ensures memo { Memo (job_at version journal.now booked) order.now arrivals memo.new }
    ensures memo_len { length memo.new ≡ 128 }
{
    let known = codec::byte_at(memo, job);
    if known > 0 {
        return u32::from(known - 1);
    }
    u32::from(age_along(
        version,
        journal,
        booked,
        numbers,
        sets,
        &order[..arrivals],
        memo,
        job,
    ))
}
