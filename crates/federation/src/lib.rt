// The settings of a federation: which are lawful, and how many votes are a quorum.
#![tactic(auto)]

ghost use Rattle.std.specs.Prelude.{◌≡◌, leb};
ghost use Rattle.std.specs.Int.Count.{ones};
ghost use Rattle.federation.specs.Federation.{latest, is_known, is_federation, is_lawful, threshold_of};

// n vaults, at most b of them faulty, and which are; and the version of the records (M-102).
#[derive(Clone, Copy)]
pub struct Settings {
    pub n: u8,
    pub b: u8,
    pub faulty: u16,
    pub version: u16,
}

// There are records of versions 1 and 2.
#[tactic(auto, unfolding(crate::specs::Federation::is_known))]
fn is_known(version: u16) -> bool
    ensures { result ≡ is_known latest version }
{
    1 <= version && version <= 2
}

impl Settings {
    // Whether document 01 allows the vaults. Widened, because 3b and 2 ^ n do not fit a byte and 16 bits.
    #[tactic(auto, unfolding(crate::specs::Federation::is_federation))]
    fn is_federation(self) -> bool
        ensures { result ≡ is_federation self }
    {
        let n = self.n;
        let most = u32::from(self.b);
        n <= 16
            && 3 * most < u32::from(n)
            && sets::vaults::within(self.faulty, n)
            && sets::vaults::size(self.faulty) <= most
    }

    // Check 1 of settings: a version that there is, and vaults that document 01 allows.
    #[tactic(auto, unfolding(crate::specs::Federation::is_lawful_up_to))]
    pub fn is_lawful(self) -> bool
        ensures { result ≡ is_lawful self }
    {
        is_known(self.version) && self.is_federation()
    }

    // How many signatures certify a job, and how many acknowledgements finish it.
    #[tactic(auto, unfolding(crate::specs::Federation::threshold_of))]
    pub fn threshold(self) -> u32
        ensures { result ≡ threshold_of self }
    {
        u32::from(self.n.saturating_sub(self.b))
    }

    // Whether the votes are as many as certify a job, or finish it.
    pub fn is_quorum(self, votes: u16) -> bool
        ensures { result ≡ leb (threshold_of self) (ones votes) }
    {
        self.threshold() <= sets::vaults::size(votes)
    }
}
