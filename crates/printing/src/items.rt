// What a character of a row stands for, written.
ghost use Rattle.std.specs.Prelude.{[], ◌∷◌, ◌≡◌, ◌%◌, ◌+◌, ◌/◌, ◌<◌, ◌^◌, ◌≤◌, length};
ghost use Rattle.rows.specs.Items.{fits_as, form_of, hex_digit, is_plain, set_text, width};
ghost use Rattle.printing.specs.Member.{Shown, item_room, member};
ghost use Rattle.digits.specs.Digits.{Put};

// The value can be said: a byte that is not shown is the row's, and a label has its characters.
pub(crate) fn fits(i: u8, value: u32) -> bool
    ensures { result ≡ fits_as (form_of i) i value }
{
    match i {
        0..=31 => value == i as u32,
        b'?' => is_plain(value),
        _ => true,
    }
}

fn is_plain(c: u32) -> bool
    ensures { result ≡ is_plain c }
{
    c < 256 && parsing::is_plain(c as u8)
}

fn hex_digit(d: u32) -> u8
    requires { d < 16 }
    ensures { result ≡ hex_digit d }
{
    if d < 10 {
        b'0' + d as u8
    } else {
        b'a' - 10 + d as u8
    }
}

fn put_hex(out: &mut [u8], at: usize, v: u32) -> usize
    requires { (v < 256) × (at + 2 ≤ length out.old) }
    ensures { Put out.old at (hex_digit (v / 16) ∷ hex_digit (v % 16) ∷ []) out.new result × (result ≤ at + 2) }
{
    let end = digits::write_byte(out, at, hex_digit(v / 16));
    digits::write_byte(out, end, hex_digit(v % 16))
}

// One vault of a set; a comma stands before all but the first.
pub fn put_member(out: &mut [u8], at: usize, first: bool, vault: u8) -> usize
    requires { at + 11 ≤ length out.old }
    ensures { Put out.old at (member first vault) out.new result × (result ≤ at + 11) }
{
    if first {
        return digits::write_number(out, at, vault as u32);
    }
    let end = digits::write_byte(out, at, b',');
    digits::write_number(out, end, vault as u32)
}

fn put_set(out: &mut [u8], at: usize, set: u16) -> usize
    requires { at + item_room ≤ length out.old }
    ensures { Put out.old at (set_text set) out.new result }
{
    if set == 0 {
        return words::put(out, at, b"none");
    }
    let mut end = at;
    let mut first = true;
    for i in 0..16 {
        if sets::vaults::has(set, i) {
            end = put_member(out, end, first, i);
            first = false;
        }
    }
    end
}

pub(crate) fn write(i: u8, value: u32, out: &mut [u8], at: usize) -> usize
    requires { (value < 256 ^ width (form_of i)) × (at + item_room ≤ length out.old) }
    ensures { Shown i value out.old at out.new result }
{
    match i {
        0..=31 => at,
        b'#' => digits::write_number(out, at, value),
        b'$' => digits::write_number(out, at, value),
        b'@' => put_set(out, at, value as u16),
        b'%' => put_hex(out, at, value),
        b'?' => digits::write_byte(out, at, value as u8),
        _ => digits::write_byte(out, at, i),
    }
}
