//! What was printed of the connections that a node's listings showed.

use pool_state::{Agent, ConnSide, Listing, Phase, Row};
use std::alloc::Global;
use std::io;
use std::io::Write;

/// A connection of which it was printed that it is live.
#[derive(Clone, Copy)]
struct ShownConn {
    number: u32,
    /// The agent that was printed last.
    agent: Option<Agent>,
    /// Whether the peer was asked what it is.
    is_asked: bool,
}

/// What was printed of the connections.
#[derive(Drop)]
pub struct Shown {
    conns: Vec<ShownConn>,
}

impl Shown {
    /// Nothing was printed.
    pub fn new(alloc: Global) -> Shown {
        Shown {
            conns: Vec::new(alloc),
        }
    }

    /// Prints what this listing shows and wasn't printed: connections that are gone, those that are live, and what
    /// their peers call their programs. Answers whether there was anything.
    pub fn print<O: Write>(&mut self, listing: &Listing, output: &mut O) -> io::Result<bool> {
        let gone = self.print_gone(listing, output)?;
        let mut has_printed = gone;
        for row in listing.conns.iter() {
            if row.phase == Phase::Live && self.print_row(row, output)? {
                has_printed = true;
            }
        }
        if has_printed {
            output.flush()?;
        }
        Ok(has_printed)
    }

    /// Prints which connections are gone.
    fn print_gone<O: Write>(&mut self, listing: &Listing, output: &mut O) -> io::Result<bool> {
        let mut has_printed = false;
        let mut at = 0;
        for _ in 0..self.conns.len() {
            let Some(conn) = self.conns.get(at) else {
                break;
            };
            let number = conn.number;
            if listing.conns.iter().any(|row| row.conn == number) {
                at += 1;
            } else {
                writeln!(output, "gone {number}")?;
                self.forget(at);
                has_printed = true;
            }
        }
        Ok(has_printed)
    }

    /// Forgets the connection at this place.
    fn forget(&mut self, at: usize) {
        if at < self.conns.len() {
            self.conns.remove(at);
        }
    }

    /// Prints what is new of a live connection.
    fn print_row<O: Write>(&mut self, row: &Row, output: &mut O) -> io::Result<bool> {
        let at = self.conns.iter().position(|conn| conn.number == row.conn);
        let Some(at) = at else {
            self.conns.push(ShownConn {
                number: row.conn,
                agent: None,
                is_asked: false,
            })?;
            print_live(row, output)?;
            return Ok(true);
        };
        let Some(conn) = self.conns.get_mut(at) else {
            return Ok(false);
        };
        if conn.agent == row.agent {
            return Ok(false);
        }
        conn.agent = row.agent;
        print_agent(row, output)?;
        Ok(true)
    }

    /// A live connection whose peer wasn't asked what it is. It counts as asked from now on.
    pub fn next_unasked(&mut self) -> Option<u32> {
        let at = self.conns.iter().position(|conn| !conn.is_asked)?;
        let conn = self.conns.get_mut(at)?;
        conn.is_asked = true;
        Some(conn.number)
    }
}

/// Prints that a connection is live.
fn print_live<O: Write>(row: &Row, output: &mut O) -> io::Result<()> {
    let role = match row.role {
        ConnSide::Dialer => "dialer",
        ConnSide::Listener => "listener",
    };
    match &row.peer {
        Some(peer) => writeln!(output, "conn {} {role} {peer}", row.conn),
        None => writeln!(output, "conn {} {role} -", row.conn),
    }
}

/// Prints what the peer of a connection calls its program.
fn print_agent<O: Write>(row: &Row, output: &mut O) -> io::Result<()> {
    if let Some(agent) = &row.agent {
        let agent = std::str::from_utf8(agent.as_bytes()).unwrap_or("");
        writeln!(output, "agent {} {agent}", row.conn)?;
    }
    Ok(())
}
