// Bits of a table of words, and the sets of jobs in it.
ghost use Rattle.std.specs.Prelude.{true, ◌≡◌, ◌+◌, ◌*◌, ◌<◌, length};
ghost use Rattle.job_sets.specs.Jobs.{InWords};
ghost use Rattle.index.specs.Words.{marked, set_at};

use job_sets::JobSet;

// Sets bit b.
pub fn mark(words: &mut [u64], b: usize)
    requires { b < 64 * length words.old }
    ensures { words.new ≡ marked words.old b true }
{
    let w = b / 64;
    words[w] |= 1u64 << (b % 64);
}

// The set of jobs in two words.
#[tactic(auto, unfolding(crate::specs::Words::set_at))]
pub(crate) fn set_at(words: &[u64], at: usize) -> JobSet
    requires { at + 1 < length words.now }
    ensures { (result ≡ set_at words.now at) × InWords result }
{
    JobSet {
        low: words[at],
        high: words[at + 1],
    }
}
