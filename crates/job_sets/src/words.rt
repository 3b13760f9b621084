// One word of a set of jobs. The callers keep the bit below the width, so a shift has its meaning.
ghost use Rattle.std.specs.Prelude.{◌≡◌, ◌<◌};
ghost use Rattle.sets.specs.Bits.{has_bit, with_bit, without_bit};

#[tactic(auto, unfolding(sets::specs::Bits::has_bit))]
pub(crate) fn has(word: u64, bit: usize) -> bool
    requires { bit < 64 }
    ensures { result ≡ has_bit word bit }
{
    (word >> bit) % 2 == 1
}

pub(crate) fn with(word: u64, bit: usize) -> u64
    requires { bit < 64 }
    ensures { result ≡ with_bit word bit }
{
    word | (1u64 << bit)
}

// Takes away the bit as it stands: 2 ^ bit where it is set, else 0.
#[tactic(auto, using(sets::proofs::Bits::bit_le, sets::proofs::Bits::bit_shl), unfolding(sets::specs::Bits::without_bit))]
pub(crate) fn without(word: u64, bit: usize) -> u64
    requires { bit < 64 }
    ensures { result ≡ without_bit word bit }
{
    word - (((word >> bit) % 2) << bit)
}
