// Prints a line for each contest of up to 16 vaults, and for those that are one past an edge: n, f and t, then who can force a win and whether both
// jobs could reach t, or the refusal's number. Document 02 (M-111) decides what they must be; `stdout` holds them, and `reference` plays them out.
#![tactic(auto)]

use contest::{Outlook, Prospect};
use outcome::Refusal;
use std::io;

fn say_prospect(rt: &HostRuntime, prospect: Prospect) -> io::Result<()> {
    let winner = match prospect {
        Prospect::First => "first",
        Prospect::Second => "second",
        Prospect::Neither => "neither",
    };
    print!(rt; "{winner}")
}

fn say_outlook(rt: &HostRuntime, outlook: Outlook) -> io::Result<()> {
    say_prospect(rt, outlook.prospect)?;
    if outlook.both {
        print!(rt; " both")?;
    }
    Ok(())
}

fn say(rt: &HostRuntime, answer: Result<Outlook, Refusal>) -> io::Result<()> {
    match answer {
        Ok(outlook) => say_outlook(rt, outlook)?,
        Err(why) => {
            let number = why.number();
            print!(rt; "{number}")?;
        }
    }
    println!(rt)
}

fn line(rt: &HostRuntime, n: u8, f: u8, t: u8) -> io::Result<()> {
    print!(rt; "{n} {f} {t} ")?;
    say(rt, contest::forecast(n, f, t))
}

fn thresholds(rt: &HostRuntime, n: u8, f: u8, past: u8) -> io::Result<()> {
    for t in 0..past {
        line(rt, n, f, t)?;
    }
    Ok(())
}

fn contests(rt: &HostRuntime, n: u8, past: u8) -> io::Result<()> {
    for f in 0..past {
        thresholds(rt, n, f, past)?;
    }
    Ok(())
}

fn main(rt: HostRuntime) -> io::Result<()> {
    for n in 0..18 {
        contests(&rt, n, n + 2)?;
    }
    line(&rt, 255, 255, 255)
}
