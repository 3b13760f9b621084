// Places in a text: what may be passed over.
ghost use Rattle.std.specs.Prelude.{◌≡◌, ◌≤◌, drop, length};
ghost use Rattle.notation.specs.Files.{after_line, is_blank, line_over, skip_blanks};

fn is_blank(c: u8) -> bool
    ensures { result ≡ is_blank c }
{
    c == b' ' || c == b'\t' || c == b'\r'
}

pub(crate) fn skip_blanks(text: &[u8], from: usize) -> usize
    requires { from ≤ length text.now }
    ensures { (drop result text.now ≡ skip_blanks (drop from text.now)) × (result ≤ length text.now) }
{
    for at in from..text.len() {
        if !is_blank(text[at]) {
            return at;
        }
    }
    text.len()
}

// Nothing more stands on the line but a comment.
pub(crate) fn is_over(text: &[u8], at: usize) -> bool
    requires { at ≤ length text.now }
    ensures { result ≡ line_over (drop at text.now) }
{
    at >= text.len() || lines::closes(text[at])
}

pub(crate) fn after_line(text: &[u8], from: usize) -> usize
    requires { from ≤ length text.now }
    ensures { (drop result text.now ≡ after_line (drop from text.now)) × (result ≤ length text.now) }
{
    for at in from..text.len() {
        if text[at] == b'\n' {
            return at + 1;
        }
    }
    text.len()
}
