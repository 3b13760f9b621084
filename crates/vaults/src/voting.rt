// The votes on a job: a vault's vote joins those in one of the two columns.
ghost use Rattle.std.specs.Prelude.{◌≡◌};
ghost use Rattle.vaults.specs.Votes.{column_of, with_vote};

use crate::{Column, Votes};

impl Votes {
    pub fn of(self, column: Column) -> u16
        ensures { result ≡ column_of column self }
    {
        match column {
            Column::Signatures => self.signatures,
            Column::Acknowledgements => self.acknowledgements,
        }
    }

    pub fn with(self, column: Column, vault: u8) -> Votes
        ensures { result ≡ with_vote column vault self }
    {
        match column {
            Column::Signatures => Votes {
                signatures: sets::vaults::with(self.signatures, vault),
                acknowledgements: self.acknowledgements,
            },
            Column::Acknowledgements => Votes {
                signatures: self.signatures,
                acknowledgements: sets::vaults::with(self.acknowledgements, vault),
            },
        }
    }
}
