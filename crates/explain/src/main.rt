// Reads a run file from standard input and explains it: each step with its answer in words, then the state of each job. What is said is the
// library's choice.
#![tactic(auto)]

ghost use Rattle.std.specs.Prelude.{◌≤◌, length};
ghost use Rattle.telling.specs.Room.{step_room};

use ledger::Ledger;
use std::io;
use std::io::Print;

fn print_sheet(rt: &HostRuntime, ledger: Ledger, out: &mut [u8]) -> io::Result<()>
    requires { step_room ≤ length out.old }
{
    for job in 0..ledger.booked {
        let n = sheet::job_line(ledger, job, out);
        rt.write_all(parts::front(out, n))?;
    }
    Ok(())
}

fn carry_out(rt: &HostRuntime, input: &[u8]) -> io::Result<()> {
    let mut memo = [0u8; journal::CAPACITY];
    let mut journal = [0u8; run::JOURNAL];
    let mut numbers = [0u16; index::NUMBERS];
    let mut sets = [0u64; index::SETS];
    let mut records = [0u16; index::RECORDS];
    let mut out = [0u8; telling::PIECE];
    let mut progress = run::start(input, &mut out);
    let mut named = None;
    while progress.pos < input.len() {
        let t = explaining::next(
            progress,
            named,
            &mut memo,
            &mut journal,
            &mut numbers,
            &mut sets,
            &mut records,
            input,
            &mut out,
        );
        progress = t.progress;
        named = t.named;
        rt.write_all(parts::front(&out, progress.written))?;
    }
    print_sheet(rt, progress.ledger, &mut out)
}

fn turn_back(rt: &HostRuntime) -> io::Result<()> {
    let mut out = [0u8; telling::PIECE];
    let n = answers::refuse(&mut out);
    rt.write_all(parts::front(&out, n))
}

fn main(rt: HostRuntime) -> io::Result<()> {
    let mut input = header::input_buffer();
    let n = streams::read_full(&mut rt.stdin(), &mut input)?;
    let file = &input[..n];
    if header::opens(file) {
        return carry_out(&rt, file);
    }
    turn_back(&rt)
}
