// The first step that can't be read.
ghost use Rattle.std.specs.Prelude.{true, ◌≡◌, ◌<◌};
ghost use Rattle.std.specs.Option.{MatchOption};
ghost use Rattle.release_file.specs.Releases.{unread_in};
ghost use Rattle.runfile.specs.Run.{opens};

// Its number, where there is one.
pub(crate) fn first(input: &[u8]) -> Option<u32>
    requires { opens input.now ≡ true }
    ensures { MatchOption result (unread_in input.now ≡ 0) (λ n. (n ≡ unread_in input.now) × (0 < n) × (n < 1000000)) }
{
    let version = fields::word_at(input, 3);
    let mut pos: usize = 9;
    let mut count: u32 = 0;
    while pos < input.len() {
        count += 1;
        let step = reading::step_at(version, input, pos, count);
        let kind = step.kind;
        if kind_table::is_unknown(kind) {
            return Some(count);
        }
        pos = step.end;
    }
    None
}
