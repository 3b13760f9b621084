// Parts of a buffer.
#![tactic(auto)]

ghost use Rattle.std.specs.Prelude.{◌≡◌, ◌≤◌, drop, length, take};

// The first n bytes, or all where there are fewer.
pub fn front(buffer: &[u8], n: usize) -> &[u8]
    ensures { (result.now ≡ take n buffer.now) × (length result.now ≤ n) }
{
    &buffer[..buffer.len().min(n)]
}

// The bytes from a place on, none where there are not so many.
pub fn from(bytes: &[u8], at: usize) -> &[u8]
    ensures { result.now ≡ drop at bytes.now }
{
    bytes.get(at..).unwrap_or(&[])
}
