// A set of jobs. A journal books at most 128, so two words hold every set.
ghost use Rattle.std.specs.Prelude.{◌≡◌};
ghost use Rattle.job_sets.specs.Jobs.{is_empty, job_count, job_has, job_union, job_with, job_without, jobs_common, jobs_meet, no_jobs};

use super::words;

// Jobs 0 to 63 are the bits of `low`, and 64 to 127 those of `high`. No method asks anything of its arguments: a job of
// 128 or more is in no set, and adding or removing it changes nothing.
#[derive(Clone, Copy)]
pub struct JobSet {
    pub low: u64,
    pub high: u64,
}

impl JobSet {
    #[tactic(auto, unfolding(crate::specs::Jobs::no_jobs))]
    pub fn empty() -> JobSet
        ensures { result ≡ no_jobs }
    {
        JobSet { low: 0, high: 0 }
    }

    #[tactic(auto, unfolding(crate::specs::Jobs::is_empty))]
    pub fn is_empty(self) -> bool
        ensures { result ≡ is_empty self }
    {
        self.low == 0 && self.high == 0
    }

    // Whether the job is a member.
    #[tactic(auto, unfolding(crate::specs::Jobs::job_has))]
    pub fn has(self, job: usize) -> bool
        ensures { result ≡ job_has self job }
    {
        match job {
            0..=63 => words::has(self.low, job),
            64..=127 => words::has(self.high, job - 64),
            _ => false,
        }
    }

    // The set and the job besides.
    #[tactic(auto, unfolding(crate::specs::Jobs::job_with))]
    pub fn with(self, job: usize) -> JobSet
        ensures { result ≡ job_with self job }
    {
        match job {
            0..=63 => JobSet {
                low: words::with(self.low, job),
                ..self
            },
            64..=127 => JobSet {
                high: words::with(self.high, job - 64),
                ..self
            },
            _ => self,
        }
    }

    // The set but for the job.
    #[tactic(auto, unfolding(crate::specs::Jobs::job_without))]
    pub fn without(self, job: usize) -> JobSet
        ensures { result ≡ job_without self job }
    {
        match job {
            0..=63 => JobSet {
                low: words::without(self.low, job),
                ..self
            },
            64..=127 => JobSet {
                high: words::without(self.high, job - 64),
                ..self
            },
            _ => self,
        }
    }

    // The members of either set.
    #[tactic(auto, unfolding(crate::specs::Jobs::job_union))]
    pub fn union(self, other: JobSet) -> JobSet
        ensures { result ≡ job_union self other }
    {
        JobSet {
            low: self.low | other.low,
            high: self.high | other.high,
        }
    }

    // The members that both sets have.
    #[tactic(auto, unfolding(crate::specs::Jobs::jobs_common))]
    pub fn common(self, other: JobSet) -> JobSet
        ensures { result ≡ jobs_common self other }
    {
        JobSet {
            low: self.low & other.low,
            high: self.high & other.high,
        }
    }

    // Whether the sets have a member in common.
    #[tactic(auto, unfolding(crate::specs::Jobs::jobs_meet))]
    pub fn meets(self, other: JobSet) -> bool
        ensures { result ≡ jobs_meet self other }
    {
        self.low & other.low != 0 || self.high & other.high != 0
    }

    // How many members the set has.
    #[tactic(auto, unfolding(crate::specs::Jobs::job_count))]
    pub fn count(self) -> u32
        ensures { result ≡ job_count self }
    {
        self.low.count_ones() + self.high.count_ones()
    }
}
