// Reads a script from standard input and carries it out on ledgers, as a program does that uses the library; its cases are steps of a run file's
// text, and some more for what a run file can't say. Each is printed with the two figures of its answer behind it, and the numbers that it
// lists. Documents 01 and 02 decide what they must be; `stdout` holds them.
#![tactic(auto)]

mod case_lines;

ghost use Rattle.std.specs.Prelude.{◌≤◌};

use ledger::{Ledger, Listing, Reply};
use outcome::Outcome;
use scripts::{Figures, ROOM};
use std::io;
use vaults::Column;

// Room for 128 records of either version.
const JOURNAL: usize = 13312;

// The two figures of an answer, and the end of the line.
fn print_answer(rt: &HostRuntime, outcome: Outcome) -> io::Result<()> {
    let figures = Figures(outcome);
    println!(rt; " {figures}")
}

// The figures of a step, and the ledger that it left.
fn report(rt: &HostRuntime, reply: Reply) -> io::Result<Ledger> {
    print_answer(rt, reply.outcome)?;
    Ok(reply.ledger)
}

// The figures of a step, and the jobs or the vaults that it lists.
fn list(rt: &HostRuntime, listing: Listing) -> io::Result<()> {
    let figures = Figures(listing.outcome);
    print!(rt; " {figures}")?;
    for k in 0..128 {
        if listing.members.has(k) {
            print!(rt; " {k}")?;
        }
    }
    println!(rt)
}

// How long a record is, and the frames of its first output.
fn show_record(rt: &HostRuntime, bytes: &[u8]) -> io::Result<()> {
    let length = bytes.len();
    let frames = codec::entry_of(bytes, 4).frames;
    println!(rt; " {length} {frames}")
}

// A step that changes nothing, by its kind; kind 15 is the program's own, a record shown. A draw needs no ledger, and is none of these.
fn ask(rt: &HostRuntime, ledger: Ledger, journal: &[u8], kind: u8, body: &[u8]) -> io::Result<()> {
    let vault = fields::byte_at(body, 0);
    let job = fields::byte_at(body, 1);
    match kind {
        6 => print_answer(rt, operations::show(ledger, journal, vault)),
        8 => print_answer(rt, operations::generations(ledger, journal, vault)),
        11 => list(rt, operations::dependencies(ledger, journal, vault, job)),
        13 => list(rt, operations::equivocating(ledger, journal)),
        15 => show_record(rt, operations::lookup(ledger, journal, vault)),
        0 => Ok(()),
        _ => println!(rt; " ?"),
    }
}

// A step of a run file, by its kind; kind 14 is the program's own, a new ledger.
fn step(
    rt: &HostRuntime,
    ledger: Ledger,
    journal: &mut [u8],
    kind: u8,
    body: &[u8],
) -> io::Result<Ledger> {
    let vault = fields::byte_at(body, 0);
    let job = fields::byte_at(body, 1);
    let other = fields::byte_at(body, 2);
    match kind {
        1 => report(rt, operations::propose(ledger, journal, body)),
        2 => report(rt, operations::preflight(ledger, journal, vault, job)),
        3 => {
            let signers = fields::word_at(body, 2);
            report(rt, operations::commit(ledger, journal, vault, job, signers))
        }
        4 => {
            let column = Column::Signatures;
            report(
                rt,
                operations::faulty_vote(ledger, journal, column, vault, job),
            )
        }
        5 => {
            let column = Column::Acknowledgements;
            report(
                rt,
                operations::faulty_vote(ledger, journal, column, vault, job),
            )
        }
        9 => report(rt, operations::snapshot(ledger)),
        10 => report(rt, operations::release(ledger, journal, vault, job, other)),
        12 => report(
            rt,
            operations::client_preflight(ledger, journal, vault, job, other),
        ),
        14 => report(
            rt,
            books::new(
                other,
                fields::byte_at(body, 3),
                fields::word_at(body, 4),
                fields::word_at(body, 0),
            ),
        ),
        _ => {
            ask(rt, ledger, journal, kind, body)?;
            Ok(ledger)
        }
    }
}

// Before the first line of settings the ledger is one that turns every step back.
fn carry_out(rt: &HostRuntime, text: &[u8], journal: &mut [u8]) -> io::Result<()> {
    let mut ledger = books::new(0, 0, 0, 0).ledger;
    let mut at = 0;
    while at < text.len() {
        let next = scripts::after_line(text, at);
        let mut bytes = [0u8; ROOM];
        let settings = ledger.settings;
        let case = case_lines::read_line(rt, settings.version, text, at, next, &mut bytes)?;
        let n = case.lent.min(journal.len());
        ledger = step(
            rt,
            ledger,
            &mut journal[..n],
            case.kind,
            scripts::body(&bytes, case.end),
        )?;
        at = next;
    }
    Ok(())
}

fn main(rt: HostRuntime) -> io::Result<()> {
    let mut text = [0u8; 65536];
    let mut journal = [170u8; JOURNAL];
    let n = streams::read_full(&mut rt.stdin(), &mut text)?;
    carry_out(&rt, &text[..n], &mut journal)
}
