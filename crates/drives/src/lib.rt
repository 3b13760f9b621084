// The house table: which media a drive reads and writes.
#![tactic(auto)]

ghost use Rattle.std.specs.Prelude.{◌≡◌};
ghost use Rattle.drives.specs.Drives.{supports, is_drive};

use record::labels;
use record::labels::MEDIA;

// A row for each of drives 5 to 9, a column for each medium, L5 to L9 and M8.
const READS: [[bool; 6]; 5] = [
    [true, false, false, false, false, false], // drive 5 reads L5
    [true, true, false, false, false, false], // drive 6 reads L5, L6
    [true, true, true, false, false, false], // drive 7 reads L5, L6, L7
    [false, false, true, true, false, true], // drive 8 reads L7, L8, M8
    [false, false, false, true, true, false], // drive 9 reads L8, L9
];

const WRITES: [[bool; 6]; 5] = [
    [true, false, false, false, false, false], // drive 5 writes L5
    [true, true, false, false, false, false], // drive 6 writes L5, L6
    [false, true, true, false, false, false], // drive 7 writes L6, L7
    [false, false, true, true, false, true], // drive 8 writes L7, L8, M8
    [false, false, false, true, true, false], // drive 9 writes L8, L9
];

#[tactic(auto, unfolding(crate::specs::Drives::is_drive))]
pub fn is_drive(drive: u8) -> bool
    ensures { result ≡ is_drive drive }
{
    labels::between(5, 9, drive)
}

// Whether the drive writes the medium, or reads it.
#[tactic(auto, using(crate::proofs::Table::cells), unfolding(crate::specs::Drives::supports, crate::specs::Drives::is_drive, record::specs::Labels::is_between))]
pub fn supports(writing: bool, drive: u8, medium: usize) -> bool
    ensures { result ≡ supports writing drive medium }
{
    if !is_drive(drive) || MEDIA <= medium {
        return false;
    }
    let row = usize::from(drive - 5);
    if writing {
        WRITES[row][medium]
    } else {
        READS[row][medium]
    }
}
