// Sets of vaults, bit i for vault i. No function asks anything of its arguments: a vault of 16 or more is in no set,
// and adding it changes nothing.
ghost use Rattle.std.specs.Prelude.{◌≡◌, ◌^◌, ltb};
ghost use Rattle.std.specs.Int.Count.{ones};
ghost use Rattle.sets.specs.Bits.{has_bit, with_member, subset_of};

// Whether the vault is a member. The test comes first because a shift by 16 or more has no meaning.
pub fn has(set: u16, vault: u8) -> bool
    ensures { result ≡ has_bit set vault }
{
    vault < 16 && (set >> vault) % 2 == 1
}

// The set and the vault besides.
pub fn with(set: u16, vault: u8) -> u16
    ensures { result ≡ with_member 16 set vault }
{
    if vault < 16 {
        set | (1u16 << vault)
    } else {
        set
    }
}

// Whether each member of a is a member of b.
pub fn subset(a: u16, b: u16) -> bool
    ensures { result ≡ subset_of a b }
{
    a & b == a
}

// How many members the set has.
pub fn size(set: u16) -> u32
    ensures { result ≡ ones set }
{
    set.count_ones()
}

// Whether all members are below n. Widened, because 2 ^ 15 is the largest power that 16 bits hold.
pub fn within(set: u16, n: u8) -> bool
    ensures { result ≡ ltb set (2 ^ n) }
{
    n >= 16 || u32::from(set) < (1u32 << n)
}
