// The run and its release list under C names, in a static library for programs in C or Rust to link.
#![tactic(auto)]

ghost use Rattle.std.specs.Prelude.{◌≤◌};
ghost use Rattle.exported.specs.Fits.{Fits};
ghost use Rattle.release_file.specs.Releases.{releases_text};
ghost use Rattle.runfile.specs.Run.{run_text};
ghost use Rattle.digits.specs.Digits.{Put};

// The length of the text, which stands at the front of `out` afterwards if there is room for all of it; else nothing is written.
#[unsafe(no_mangle)]
pub extern "C" fn custody_run(input: &[u8], out: &mut [u8]) -> usize
    ensures { Fits (run_text input.now) out.old out.new result }
{
    exported::custody_run(input, out)
}

// The release list, in a buffer that has room for the longest.
#[unsafe(no_mangle)]
pub extern "C" fn custody_releases(input: &[u8], out: &mut [u8; release_list::ROOM]) -> usize
    ensures { Put out.old 0 (releases_text input.now) out.new result × (result ≤ 12805) }
{
    exported::custody_releases(input, out)
}
