//! Whether a listing shows what a script awaits, and what is printed of it then.

ghost use Rattle.std.specs.Prelude.{◌≡◌, ◌↔◌, OnOk, IsTrue};
ghost use Rattle.std.specs.Io.KnownBytes.{Appends};
ghost use Rattle.pool_texts.specs.Printed.{line};
ghost use Rattle.node_lines.specs.Awaiting.{lives_in, agents_in, done_in, Shows, awaited_text};

use crate::script::Awaited;
use pool_state::{Listing, Phase, Row};
use std::io;
use std::io::Write;

/// Whether a listing shows what is awaited.
pub fn is_shown(awaited: Awaited, listing: &Listing) -> bool
    ensures { IsTrue result ↔ Shows listing.now.conns.items awaited }
{
    let rows = listing.conns.as_slice();
    match awaited {
        Awaited::Live(count) => lives_in(rows) == count,
        Awaited::None => rows.is_empty(),
        Awaited::Done(index, count) => done_in(rows, index) == count,
        Awaited::Agent(count) => agents_in(rows) == count,
    }
}

/// How many of the connections are live.
fn lives_in(rows: &[Row]) -> u64
    ensures { result ≡ lives_in rows.now }
{
    rows.iter().filter(|row| row.phase == Phase::Live).count() as u64
}

/// How many of the connections have a peer that named its agent.
fn agents_in(rows: &[Row]) -> u64
    ensures { result ≡ agents_in rows.now }
{
    rows.iter().filter(|row| row.agent.is_some()).count() as u64
}

/// How many streams of a protocol are done, on all connections, or the most that can be counted.
fn done_in(rows: &[Row], index: u8) -> u64
    ensures { result ≡ done_in rows.now index }
{
    let mut done = 0_u64;
    for row in rows {
        done = done.saturating_add(row.done.get(index as usize).copied().unwrap_or(0));
    }
    done
}

/// Prints what was awaited and came, in a line that begins so.
pub fn print_awaited<O: Write>(begin: &str, awaited: Awaited, output: &mut O) -> io::Result<()>
    ensures printed { OnOk result (Appends (O.contents output.old) (O.contents output.new)
        (line begin.now (awaited_text awaited))) }
{
    match awaited {
        Awaited::Live(count) => writeln!(output, "{begin}live {count}"),
        Awaited::None => writeln!(output, "{begin}none"),
        Awaited::Done(index, count) => writeln!(output, "{begin}done {index} {count}"),
        Awaited::Agent(count) => writeln!(output, "{begin}agent {count}"),
    }
}
