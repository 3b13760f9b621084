// A vault's own part of preflight, commit and release: its two sets go in and come back.
ghost use Rattle.std.specs.Prelude.{◌≡◌};
ghost use Rattle.vaults.specs.Vaults.{new_vault, signing, holding, unsigning, vault_preflight};

use crate::{Consent, Signing, Vault};
use job_sets::JobSet;
use outcome::Verdict;

impl Vault {
    // A vault that holds nothing and has signed nothing.
    pub fn new() -> Vault
        ensures { result ≡ new_vault }
    {
        let none = JobSet::empty();
        Vault {
            held: none,
            signed: none,
        }
    }

    fn sign(self, job: usize) -> Vault
        ensures { result ≡ signing self job }
    {
        let held = self.held;
        let signed = self.signed.with(job);
        Vault { held, signed }
    }

    // The vault with the job among those that it holds.
    pub fn commit(self, job: usize) -> Vault
        ensures { result ≡ holding self job }
    {
        let held = self.held.with(job);
        let signed = self.signed;
        Vault { held, signed }
    }

    // The vault without the job among those that it has signed.
    pub fn release(self, job: usize) -> Vault
        ensures { result ≡ unsigning self job }
    {
        let held = self.held;
        let signed = self.signed.without(job);
        Vault { held, signed }
    }

    // Signs the job where checks 11 to 14, whose verdict is given, pass. One that was signed before is accepted again.
    pub fn preflight(self, admission: Verdict, job: usize) -> Signing
        ensures { result ≡ vault_preflight self admission job }
    {
        if self.signed.has(job) {
            return Signing {
                consent: Consent::Already,
                vault: self,
            };
        }
        match admission {
            Ok(()) => Signing {
                consent: Consent::Fresh,
                vault: self.sign(job),
            },
            Err(why) => Signing {
                consent: Consent::Denied(why),
                vault: self,
            },
        }
    }
}
