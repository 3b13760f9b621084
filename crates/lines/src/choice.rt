// Which row a line is read by: its first word says it.
ghost use Rattle.std.specs.Prelude.{◌≡◌, ◌≤◌, drop, length};
ghost use Rattle.notation.specs.Lines.{begins, row_for, word_ends};

fn word_ends(text: &[u8], at: usize) -> bool
    requires { at ≤ length text.now }
    ensures { result ≡ word_ends (drop at text.now) }
{
    at >= text.len() || text[at] <= 35
}

// The line begins with the row's word.
fn begins(row: &[u8], text: &[u8], from: usize) -> bool
    requires { from ≤ length text.now }
    ensures { result ≡ begins row.now (drop from text.now) }
{
    let mut at = from;
    for &c in row {
        if c < 32 {
            continue;
        }
        if c == b' ' {
            return word_ends(text, at);
        }
        if at >= text.len() || text[at] != c {
            return false;
        }
        at += 1;
    }
    word_ends(text, at)
}

pub(crate) fn row_for(text: &[u8], at: usize) -> usize
    requires { at ≤ length text.now }
    ensures { result ≡ row_for (drop at text.now) }
{
    for k in 0..words::ROWS {
        if begins(words::row_of(&words::TABLE, &words::STARTS, k), text, at) {
            return k;
        }
    }
    words::ROWS
}
