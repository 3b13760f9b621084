// The numbers of a set, each alone on a line, ascending: from one member to the next.
ghost use Rattle.std.specs.Prelude.{◌≡◌, ◌+◌, ◌<◌, ◌≤◌, length};
ghost use Rattle.base.specs.Search.{first_below};
ghost use Rattle.job_sets.specs.Jobs.{job_has};
ghost use Rattle.digits.specs.Digits.{Put};
ghost use Rattle.text.specs.Text.{lines_of, longest_lines, members_of, number_line};

use job_sets::JobSet;

// The first member, or 128.
fn first(set: JobSet) -> u32
    ensures { (result ≡ first_below 128 (job_has set)) × (result ≤ 128) }
{
    if set.low == 0 {
        64 + set.high.trailing_zeros()
    } else {
        set.low.trailing_zeros()
    }
}

fn write_alone(out: &mut [u8], at: usize, number: u32) -> usize
    requires { (number < 10000) × (at + 5 ≤ length out.old) }
    ensures { Put out.old at (number_line number) out.new result × (result ≤ at + 5) }
{
    let end = digits::write_some(out, at, number);
    digits::write_byte(out, end, b'\n')
}

// Where there is room for as many lines as a set can have.
pub(crate) fn write_list(out: &mut [u8], at: usize, set: JobSet) -> usize
    requires { at + longest_lines ≤ length out.old }
    ensures { Put out.old at (lines_of (members_of set)) out.new result × (result ≤ at + longest_lines) }
{
    let mut rest = set;
    let mut end = at;
    let mut number = first(rest);
    while number < 128 {
        end = write_alone(out, end, number);
        rest = rest.without(number as usize);
        number = first(rest);
    }
    end
}
