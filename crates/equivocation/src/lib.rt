// Kind 13: the vaults that equivocate, document 02's two-faced ones. No pair of jobs is looked at: rivals, certified jobs and partners are sets. The index is
// the journal's.
#![tactic(auto)]

ghost use Rattle.std.specs.Prelude.{◌≡◌, ◌≤◌, cond};
ghost use Rattle.index.specs.Index.{IndexedEntries};
ghost use Rattle.journal.specs.Journal.{job_at};
ghost use Rattle.ledger.specs.Equivocation.{equivocators};
ghost use Rattle.sets.specs.Bits.{has_bit};
ghost use Rattle.job_sets.specs.Jobs.{job_has, jobs_below};
ghost use Rattle.equivocation.specs.Partners.{
  certified_jobs,
  jobs_with_few,
  partners_by,
  recorded_in,
  signed_pairs,
  signers_among,
};

use federation::Settings;
use job_sets::JobSet;
use vaults::Votes;

// The jobs that have no certified rival, and those that have at most one.
#[derive(Clone, Copy)]
struct Few {
    none: JobSet,
    one: JobSet,
}

fn certified_jobs(settings: Settings, votes: [Votes; 128], booked: usize) -> JobSet
    requires { booked ≤ 128 }
    ensures { result ≡ certified_jobs settings (recorded_in votes) booked }
{
    let threshold = settings.threshold();
    let mut found = JobSet::empty();
    for k in 0..booked {
        if threshold <= sets::vaults::size(votes[k].signatures) {
            found = found.with(k);
        }
    }
    found
}

fn few_excuses(
    numbers: &[u16],
    sets: &[u64],
    version: u16,
    journal: &[u8],
    booked: usize,
    certified: JobSet,
) -> Few
    requires { IndexedEntries version journal.now booked numbers.now sets.now }
    ensures { (result.none ≡ jobs_with_few certified (job_at version journal.now booked) booked 0)
        × (result.one ≡ jobs_with_few certified (job_at version journal.now booked) booked 1) }
{
    let mut none = JobSet::empty();
    let mut one = JobSet::empty();
    for k in 0..booked {
        let rivals = rivalry::rivals_of(numbers, sets, version, journal, booked, k);
        let excuses = rivals.common(certified).count();
        if excuses == 0 {
            none = none.with(k);
        }
        if excuses <= 1 {
            one = one.with(k);
        }
    }
    Few { none, one }
}

fn near(certified: JobSet, few: Few, k: usize) -> JobSet
    ensures { result ≡ cond (job_has certified k) few.one few.none }
{
    if certified.has(k) {
        return few.one;
    }
    few.none
}

// The jobs with which job k makes a pair that nothing outside excuses.
fn partners_of(rivals: JobSet, certified: JobSet, few: Few, k: usize) -> JobSet
    ensures { result ≡ partners_by rivals certified few.none few.one k }
{
    let found = rivals.common(near(certified, few, k));
    if few.none.has(k) {
        return found;
    }
    if few.one.has(k) {
        return found.common(certified);
    }
    JobSet::empty()
}

// The vaults that signed one of these jobs.
fn signers_among(votes: [Votes; 128], booked: usize, jobs: JobSet) -> u16
    requires { booked ≤ 128 }
    ensures { result ≡ signers_among (recorded_in votes) jobs booked }
{
    if jobs.is_empty() {
        return 0;
    }
    let mut all = 0;
    for k in 0..booked {
        if jobs.has(k) {
            all |= votes[k].signatures;
        }
    }
    all
}

// The vaults that signed a job and a partner of it.
fn signed_pairs(
    votes: [Votes; 128],
    certified: JobSet,
    few: Few,
    numbers: &[u16],
    sets: &[u64],
    version: u16,
    journal: &[u8],
    booked: usize,
) -> u16
    requires { IndexedEntries version journal.now booked numbers.now sets.now }
    ensures { result ≡ signed_pairs (recorded_in votes) (job_at version journal.now booked) booked certified few.none few.one booked }
{
    let mut all = 0;
    for k in 0..booked {
        let rivals = rivalry::rivals_of(numbers, sets, version, journal, booked, k);
        let others = signers_among(votes, booked, partners_of(rivals, certified, few, k));
        all |= votes[k].signatures & others;
    }
    all
}

// Those below n, as a set of numbers.
fn vaults_below(n: u8, all: u16) -> JobSet
    ensures { result ≡ jobs_below n (has_bit all) }
{
    let mut found = JobSet::empty();
    for v in 0..n {
        if sets::vaults::has(all, v) {
            found = found.with(v as usize);
        }
    }
    found
}

pub fn equivocating(
    settings: Settings,
    votes: [Votes; 128],
    numbers: &[u16],
    sets: &[u64],
    journal: &[u8],
    booked: usize,
) -> JobSet
    requires { IndexedEntries settings.version journal.now booked numbers.now sets.now }
    ensures { result ≡ equivocators settings (recorded_in votes) (job_at settings.version journal.now booked) booked }
{
    let version = settings.version;
    let certified = certified_jobs(settings, votes, booked);
    let few = few_excuses(numbers, sets, version, journal, booked, certified);
    let all = signed_pairs(
        votes, certified, few, numbers, sets, version, journal, booked,
    );
    vaults_below(settings.n, all)
}
