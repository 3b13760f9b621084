// The header of a run file, and check 1.
#![tactic(auto)]

ghost use Rattle.std.specs.Prelude.{◌≡◌, ◌+◌, length};
ghost use Rattle.runfile.specs.Run.{is_header, longest, opened, opens};

use federation::Settings;

// How long the header is.
pub const SIZE: usize = 9;

// One byte more than the longest file, to see that there are too many.
pub const INPUT: usize = 65537;

pub fn input_buffer() -> [u8; INPUT]
    ensures { length result ≡ longest + 1 }
{
    [0; INPUT]
}

fn is_header(input: &[u8]) -> bool
    ensures { result ≡ is_header input.now }
{
    if input.len() < SIZE {
        return false;
    }
    input[0] == b'V' && input[1] == b'L' && input[2] == b'T'
}

// The settings that it names; bytes past the end count as 0.
pub fn settings_in(input: &[u8]) -> Settings
    ensures { result ≡ (opened input.now).settings }
{
    Settings {
        n: fields::byte_at(input, 5),
        b: fields::byte_at(input, 6),
        faulty: fields::word_at(input, 7),
        version: fields::word_at(input, 3),
    }
}

// Check 1.
pub fn opens(input: &[u8]) -> bool
    ensures { result ≡ opens input.now }
{
    if input.len() > 65536 {
        return false;
    }
    is_header(input) && settings_in(input).is_lawful()
}
