// Bytes and words of a file, and the record that stands in it.
#![tactic(auto)]

ghost use Rattle.std.specs.Prelude.{◌≡◌, ◌+◌, ◌<◌, ◌≤◌, drop, length, take};
ghost use Rattle.codec.specs.Codec.{record_size};
ghost use Rattle.runfile.specs.Run.{longest};
ghost use Rattle.runfile.specs.Steps.{word_at};

pub use codec::byte_at;

// 16 bits, the low byte first.
pub fn word_at(input: &[u8], at: usize) -> u16
    requires { at ≤ 65538 }
    ensures { result ≡ word_at input.now at }
{
    u16::from_le_bytes([byte_at(input, at), byte_at(input, at + 1)])
}

// The record that starts at `at`, which is all there.
pub fn record_at(version: u16, input: &[u8], at: usize) -> &[u8]
    requires { (at ≤ longest) × (at + record_size version ≤ length input.now) }
    ensures { result.now ≡ take (record_size version) (drop at input.now) }
{
    let end = at + codec::record_size(version);
    &input[at..end]
}
