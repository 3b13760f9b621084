// The one table of kinds: how long the body of a step is, and what it names.
#![tactic(auto)]

ghost use Rattle.std.specs.Prelude.{◌≡◌};
ghost use Rattle.runfile.specs.Steps.{is_unknown};
ghost use Rattle.kind_table.specs.Table.{operation_of};

use runfile::Kind;

// What the body of a step names: neither vault nor job, a job, a vault and a job, these and a client. Of a kind that is unknown there is no body.
#[derive(Clone, Copy)]
pub enum Form {
    Bare,
    OfJob,
    OfVault,
    OfClient,
    Unreadable,
}

// A row of the table of kinds: the operation, how long its body is, what that names, and whether it looks at all vaults.
#[derive(Clone, Copy)]
pub struct Operation {
    pub kind: Kind,
    pub size: usize,
    pub form: Form,
    pub wide: bool,
}

fn row(kind: Kind, size: usize, form: Form, wide: bool) -> Operation
    ensures { result ≡ record { kind = kind; size = size; form = form; wide = wide } }
{
    Operation {
        kind,
        size,
        form,
        wide,
    }
}

// The one match over kind bytes.
pub fn operation_of(version: u16, byte: u8) -> Operation
    ensures { result ≡ operation_of version byte }
{
    match byte {
        1 => row(
            Kind::Propose,
            codec::record_size(version),
            Form::Bare,
            false,
        ),
        2 => row(Kind::Preflight, 2, Form::OfVault, false),
        3 => row(Kind::Commit, 4, Form::OfVault, false),
        4 => row(Kind::FaultySign, 2, Form::OfVault, false),
        5 => row(Kind::FaultyAcknowledge, 2, Form::OfVault, false),
        6 => row(Kind::Show, 1, Form::OfJob, false),
        7 => row(Kind::Draw, 1, Form::OfJob, false),
        8 => row(Kind::Generations, 1, Form::OfJob, true),
        9 => row(Kind::Snapshot, 0, Form::Bare, false),
        10 => row(Kind::Release, 3, Form::OfVault, false),
        11 => row(Kind::Dependencies, 2, Form::OfVault, true),
        12 => row(Kind::ClientPreflight, 3, Form::OfClient, false),
        13 => row(Kind::Equivocating, 0, Form::Bare, true),
        _ => row(Kind::Unknown, 0, Form::Unreadable, false),
    }
}

// Refusal 2: a step of this kind can't be read.
pub fn is_unknown(kind: Kind) -> bool
    ensures { result ≡ is_unknown kind }
{
    matches!(kind, Kind::Unknown)
}
