// What a proposal's line has, seen before it is read.
ghost use Rattle.std.specs.Prelude.{◌&&◌, ◌||◌, cond, false, true, ◌≡◌, ◌≤◌, drop, length};
ghost use Rattle.notation.specs.Lines.{closes, counted, mark, scan, unseen};

use notation::Shape;

pub fn closes(c: u8) -> bool
    ensures { result ≡ closes c }
{
    c == b'\n' || c == b'#'
}

// One entry more, if it is one; no more than five are told apart.
fn count(hit: bool, n: u8) -> u8
    ensures { result ≡ cond hit (counted n) n }
{
    if hit && n < 5 { n + 1 } else { n }
}

fn said(hit: bool, trimmed: u8) -> u8
    ensures { result ≡ cond hit 1 trimmed }
{
    if hit { 1 } else { trimmed }
}

fn mark(s: Shape, c: u8) -> Shape
    ensures { result ≡ mark s c }
{
    Shape {
        inputs: count(c == b':' && !s.right, s.inputs),
        outputs: count(c == b':' && s.right, s.outputs),
        trimmed: said(c == b't' && s.gap, s.trimmed),
        right: c == b'>' || s.right,
        gap: c == b' ',
    }
}

fn unseen(k: usize) -> Shape
    ensures { result ≡ unseen k }
{
    Shape {
        inputs: 0,
        outputs: 0,
        trimmed: 0,
        right: k == 2,
        gap: false,
    }
}

pub(crate) fn shape_at(k: usize, text: &[u8], from: usize) -> Shape
    requires { from ≤ length text.now }
    ensures { result ≡ scan (unseen k) (drop from text.now) }
{
    let mut s = unseen(k);
    for at in from..text.len() {
        let c = text[at];
        if closes(c) {
            return s;
        }
        s = mark(s, c);
    }
    s
}
