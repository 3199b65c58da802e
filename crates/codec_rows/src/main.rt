//! Worked rows of keys, ids, addresses, negotiation, exchange and handlers, each with its answer. Played with a growth
//! refused, the answers up to it are those of ample memory, and at it a call answers want of memory.
#![tactic(auto)]

mod addresses;
mod exchanges;
mod handlings;
mod keys;
mod negotiations;
mod tally;

use std::io;
use std::process::ExitCode;
use tally::Tally;

fn main(rt: HostRuntime) -> io::Result<ExitCode> {
    let alloc = rt.alloc();
    let mut tally = Tally::new();
    keys::play(alloc, &mut tally);
    addresses::play(alloc, &mut tally);
    negotiations::play(alloc, &mut tally);
    exchanges::play(alloc, &mut tally);
    handlings::play(alloc, &mut tally);
    let at_most_one = tally.refused <= 1;
    tally.expect("one growth is refused at most", at_most_one);
    if let Some(row) = tally.first_wrong {
        println!(rt; "not as said: {row}")?;
    }
    println!(rt;
        "{} rows, {} calls refused, {} not as said",
        tally.rows, tally.refused, tally.wrong
    )?;
    Ok(ExitCode::from(if tally.wrong == 0 { 0 } else { 1 }))
}
