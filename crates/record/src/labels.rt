// Labels, as numbers: their characters, and the medium that they name.
ghost use Rattle.std.specs.Prelude.{◌≡◌, ◌<◌};
ghost use Rattle.base.specs.Search.{all_below};
ghost use Rattle.record.specs.Labels.{MediumFound, is_between, char_at, is_alphanumeric, is_m8, type_l, medium_of, is_label};

// How many media there are: the columns of the drive table, L5 to L9 and M8.
pub const MEDIA: usize = 6;

const M8: usize = 5;

#[tactic(auto, unfolding(crate::specs::Labels::is_between))]
pub fn between(low: u8, high: u8, x: u8) -> bool
    ensures { result ≡ is_between low high x }
{
    low <= x && x <= high
}

// Character i of the label.
#[tactic(auto, unfolding(crate::specs::Labels::char_at))]
fn char_at(label: u64, i: u32) -> u8
    requires { i < 8 }
    ensures { result ≡ char_at label i }
{
    ((label >> (8 * i)) % 256) as u8
}

// Whether character i is one of 0–9 or A–Z.
#[tactic(auto, unfolding(crate::specs::Labels::is_alphanumeric))]
fn alphanumeric_at(label: u64, i: u32) -> bool
    requires { i < 8 }
    ensures { result ≡ is_alphanumeric (char_at label i) }
{
    let c = char_at(label, i);
    between(b'0', b'9', c) || between(b'A', b'Z', c)
}

// Whether the label ends in `M8`.
fn is_m8(label: u64) -> bool
    ensures { result ≡ is_m8 label }
{
    char_at(label, 6) == b'M' && char_at(label, 7) == b'8'
}

// The column of a label that ends in `L` and a digit 5 to 9.
#[tactic(auto, using(crate::proofs::Ranges::between_true))]
fn type_l(label: u64) -> Option<usize>
    ensures { MediumFound (type_l label) result }
{
    let digit = char_at(label, 7);
    if char_at(label, 6) == b'L' && between(b'5', b'9', digit) {
        Some(usize::from(digit - b'5'))
    } else {
        None
    }
}

// The column in the drive table of the medium that the label names, if it names one.
#[tactic(auto, unfolding(crate::specs::Labels::medium_of))]
pub fn medium_of(label: u64) -> Option<usize>
    ensures { MediumFound (medium_of label) result }
{
    if is_m8(label) {
        Some(M8)
    } else {
        type_l(label)
    }
}

fn named(label: u64) -> bool
    ensures { result ≡ all_below 6 (λ i. is_alphanumeric (char_at label i)) }
{
    (0..6).all(|i| alphanumeric_at(label, i))
}

#[tactic(auto, unfolding(crate::specs::Labels::is_label))]
pub fn is_label(label: u64) -> bool
    ensures { result ≡ is_label label }
{
    named(label) && medium_of(label).is_some()
}
