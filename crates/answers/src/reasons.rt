// Why a step is refused.
ghost use Rattle.std.specs.Prelude.{◌+◌, ◌≤◌, length};
ghost use Rattle.answers.specs.Room.{answer_long, answer_room};
ghost use Rattle.explanations.specs.Answers.{refused_text};
ghost use Rattle.explanations.specs.Words.{reason};
ghost use Rattle.digits.specs.Digits.{Put};

// The rows one after the other, by their numbers; 0 is no refusal, and its row is empty.
const REASONS: [u8; 1254] = *b"\
    refused 1, the header or the settings are wrong, or the file is too long\
    refused 2, the kind is unknown, or the body is cut short\
    refused 3, there is no such vault\
    refused 4, the job is not booked, or its rival is not\
    refused 5, a correct vault's step at a faulty vault, or the reverse\
    refused 6, the record is malformed\
    refused 7, ???????? stands twice in the record\
    refused 8, the drive can't read or write ????????\
    refused 9, the frames don't add up\
    refused 10, 128 records are booked\
    refused 11, no job that this vault holds made ????????\
    refused 12, a job that this vault holds has retired ????????\
    refused 13, another job that this vault has signed has ???????? as an input\
    refused 14, a job held here, or another signed here, makes ????????\
    refused 15, a named signer has not signed\
    refused 16, fewer than # signers\
    refused 17, more vaults are absent than there are\
    refused 18, no correct vault holds the job\
    refused 19, the job is not signed at this vault, or was released before\
    refused 20, the other job is no rival of it, or is not held at this vault\
    refused 21, no set of jobs that correct vaults hold makes this vault accept the job\
    refused 22, the client is above 7\
    refused 23, four of the client's previous fifteen requests at this vault brought a new signature";

// Where each row starts, in bytes from the first, and at last where they end.
const STARTS: [u16; 25] = [
    0, 0, 72, 128, 161, 214, 281, 315, 361, 410, 444, 478, 532, 592, 667, 734, 775, 807, 856, 898,
    969, 1042, 1125, 1158, 1254,
];

pub(crate) fn put_reason(out: &mut [u8], number: u8) -> usize
    requires { 128 ≤ length out.old }
    ensures { Put out.old 0 (reason number) out.new result × (result ≤ 128) }
{
    words::put(out, 0, words::row_of(&REASONS, &STARTS, number as usize))
}

// A refusal; the label of an entry stands first among the bytes of its entry.
pub(crate) fn put_refused(
    out: &mut [u8],
    at: usize,
    number: u8,
    entry: u32,
    threshold: u8,
    bytes: &[u8],
) -> usize
    requires { at + answer_room ≤ length out.old }
    ensures { Put out.old at (refused_text number entry threshold bytes.now) out.new result
        × (result ≤ at + answer_long) }
{
    let mut buffer = [0u8; 128];
    let n = put_reason(&mut buffer, number);
    if number == 16 {
        let quorum = [threshold];
        return printing::write_row(parts::front(&buffer, n), &quorum, out, at);
    }
    let place = 4 + 12 * entry as usize;
    printing::write_row(parts::front(&buffer, n), parts::from(bytes, place), out, at)
}
