// Sets of vaults in 16 bits.
#![tactic(auto)]

pub mod vaults;
