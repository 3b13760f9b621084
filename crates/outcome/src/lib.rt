// What a step answers, and document 01's two figures for each answer.
#![tactic(auto)]

ghost use Rattle.std.specs.Prelude.{◌≡◌};
ghost use Rattle.outcome.specs.Figures.{number_of, value_of, refusal_number, refusal_value};

// The refusals, in the order of document 01's table, then of document 02. Where they say so, a case carries the first offending entry.
#[derive(Clone, Copy)]
pub enum Refusal {
    // 1: header or settings wrong, or file too long
    Settings,
    // 2: kind of step unknown, or its body cut short
    Unreadable,
    // 3: vault not below n
    NoVault,
    // 4: job not booked, or some booked record not wholly inside the lent journal
    NotBooked,
    // 5: a correct vault's step at a faulty vault, or the reverse
    WrongVault,
    // 6: record malformed
    Malformed,
    // 7: a used entry's label equals an earlier used entry's
    Repeated(u8),
    // 8: the drive can't read or write the entry
    Unsupported(u8),
    // 9: frames don't balance
    Unbalanced,
    // 10: journal full
    Full,
    // 11: input not created here
    NotCreated(u8),
    // 12: input retired here
    Retired(u8),
    // 13: input label also an input of another job signed here
    InputReserved(u8),
    // 14: output label already made by a job held here, or by another signed here
    OutputReserved(u8),
    // 15: a named signer has not signed
    NotSigned,
    // 16: fewer than n - b signers
    TooFewSigners,
    // 17: more vaults unable to sign than there are
    TooManyAbsent,
    // 18: no correct vault holds the job
    NotHeld,
    // 19: the job that is to be released is not signed here
    NotSignedHere,
    // 20: the other job is no rival of it, or is not held here
    NotSuperseded,
    // 21: no set of jobs that correct vaults hold would let the vault sign
    NoSetWorks,
    // 22: no client has this number
    NoClient,
    // 23: four of the client's previous fifteen requests here brought a new signature
    OverQuota,
    // 24: an entry's lowest count exceeds its highest
    Reversed(u8),
    // 25: no choice of counts within their ranges balances
    NoneBalances,
    // 26: no contest has these numbers
    NoContest,
}

// What a step answers: its value, or why it is refused.
pub type Outcome = Result<u32, Refusal>;

// The answer of a row of checks.
pub type Verdict = Result<(), Refusal>;

impl Refusal {
    // Its number in document 01's table or in document 02, and the entry that it carries, else 0.
    fn figures(self) -> (u8, u8)
        ensures { (result.0 ≡ refusal_number self) × (result.1 ≡ refusal_value self) }
    {
        match self {
            Refusal::Settings => (1, 0),
            Refusal::Unreadable => (2, 0),
            Refusal::NoVault => (3, 0),
            Refusal::NotBooked => (4, 0),
            Refusal::WrongVault => (5, 0),
            Refusal::Malformed => (6, 0),
            Refusal::Repeated(entry) => (7, entry),
            Refusal::Unsupported(entry) => (8, entry),
            Refusal::Unbalanced => (9, 0),
            Refusal::Full => (10, 0),
            Refusal::NotCreated(entry) => (11, entry),
            Refusal::Retired(entry) => (12, entry),
            Refusal::InputReserved(entry) => (13, entry),
            Refusal::OutputReserved(entry) => (14, entry),
            Refusal::NotSigned => (15, 0),
            Refusal::TooFewSigners => (16, 0),
            Refusal::TooManyAbsent => (17, 0),
            Refusal::NotHeld => (18, 0),
            Refusal::NotSignedHere => (19, 0),
            Refusal::NotSuperseded => (20, 0),
            Refusal::NoSetWorks => (21, 0),
            Refusal::NoClient => (22, 0),
            Refusal::OverQuota => (23, 0),
            Refusal::Reversed(entry) => (24, entry),
            Refusal::NoneBalances => (25, 0),
            Refusal::NoContest => (26, 0),
        }
    }

    pub fn number(self) -> u8
        ensures { result ≡ refusal_number self }
    {
        self.figures().0
    }

    pub fn value(self) -> u8
        ensures { result ≡ refusal_value self }
    {
        self.figures().1
    }
}

// 0, or the refusal's number.
pub fn number(outcome: Outcome) -> u8
    ensures { result ≡ number_of outcome }
{
    match outcome {
        Ok(_) => 0,
        Err(why) => why.number(),
    }
}

// The step's value, or the refusal's.
pub fn value(outcome: Outcome) -> u32
    ensures { result ≡ value_of outcome }
{
    match outcome {
        Ok(value) => value,
        Err(why) => u32::from(why.value()),
    }
}
