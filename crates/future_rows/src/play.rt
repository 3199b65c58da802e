//! Plays the row, and compares.

use crate::row::{ASKS, KEY, PONGS, Said, TOLD, UPGRADE};
use conn_core::ConnCore;
use conn_future::Conn;
use conn_link::{Link, Pipe, PipeStep};
use conn_log::{ConnEvent, ConnFault, ConnRefused};
use futures::Stream;
use futures::task::Poll;
use futures::test::MockTask;
use node_protocols::{FixedPayload, NodeHandler, NodeProtocols};
use peer_ids::PublicKey;
use std::alloc::Global;
use streams::Cause;
use upgrade::ConnRole;

/// How a play went.
#[derive(Clone, Copy, Debug, PartialEq, Eq)]
pub enum Played {
    /// Each event is the row's.
    AsSaid,
    /// Memory was refused, and what stands then is as said.
    Refused,
    Otherwise,
}

/// The bytes of each ping.
const PAYLOAD: [u8; 32] = [7; 32];

/// The index of ping.
const PING: usize = 2;

type End = Conn<Pipe, NodeProtocols<FixedPayload>>;

/// The pipe gives the upgrade by one read, and what follows by another.
fn pipe(alloc: Global) -> Option<Pipe> {
    let mut input = UPGRADE.to_vec(alloc).ok()?;
    input.extend_from_slice(PONGS).ok()?;
    let mut reads = Vec::new(alloc);
    reads.push(PipeStep::Upto(UPGRADE.len().max(1))).ok()?;
    Some(Pipe::new(alloc, input, reads, Vec::new(alloc)))
}

fn core(alloc: Global) -> Option<ConnCore<NodeProtocols<FixedPayload>>> {
    let own = PublicKey::read(alloc, KEY).ok()?;
    let payloads = FixedPayload { payload: PAYLOAD };
    let protocols = NodeProtocols::new(alloc, own, "node/0.1.0", payloads).ok()?;
    let key = PublicKey::read(alloc, KEY).ok()?;
    ConnCore::new(alloc, ConnRole::Dialer, key, protocols).ok()
}

fn connect(alloc: Global) -> Option<End> {
    let pipe = pipe(alloc)?;
    if pipe.failures() == u64::MAX {
        return None;
    }
    Conn::new(alloc, pipe, core(alloc)?).ok()
}

/// What an event says. A handler that meets want of memory says so by its number: that of identify, or of ping.
fn kind_of(event: &ConnEvent<NodeHandler>) -> Said {
    match event {
        ConnEvent::Upgraded(_) => Said::Upgraded,
        ConnEvent::Agreed(1, 2) => Said::Agreed,
        ConnEvent::Done(1, _) => Said::Done,
        ConnEvent::Broken(1, Cause::Handler(fault)) if fault.number == 4 => Said::Short,
        ConnEvent::Broken(1, _) => Said::Broken,
        ConnEvent::Fault(ConnFault::Link) => Said::Link,
        ConnEvent::Fault(ConnFault::OutOfMemory) => Said::OutOfMemory,
        ConnEvent::Shut => Said::Shut,
        _ => Said::Other,
    }
}

/// How far a play is.
#[derive(Clone, Copy, Debug, PartialEq, Eq)]
struct Seen {
    /// How many events were those of the row.
    count: usize,
    played: Played,
    /// `ask` was refused for want of memory.
    is_starved: bool,
    /// The stream was broken for want of memory.
    is_short: bool,
    has_ended: bool,
}

impl Seen {
    fn hear(&mut self, said: Said) {
        let is_next = TOLD.get(self.count) == Some(&said) && !self.is_starved;
        let is_last = self.played == Played::Refused && said != Said::Shut;
        match said {
            _ if is_last || self.has_ended => self.played = Played::Otherwise,
            Said::OutOfMemory => self.played = Played::Refused,
            Said::Link if !self.is_starved => self.played = Played::Refused,
            Said::Short if self.count > 0 => {
                self.played = Played::Refused;
                self.is_short = true;
            }
            Said::Shut if self.played == Played::Refused => {}
            _ if is_next => self.count = self.count.saturating_add(1),
            _ => self.played = Played::Otherwise,
        }
    }

    /// Whether what came is all that was to come.
    fn is_whole(&self) -> bool {
        let is_refused = self.played == Played::Refused;
        self.has_ended && (is_refused || (self.count == TOLD.len() && !self.is_starved))
    }
}

/// Asks for a ping. Where that is refused for memory, `shut` is called, if that is wanted.
fn ask(conn: &mut End, seen: &mut Seen, shuts: bool) {
    match conn.ask(PING) {
        Ok(1) => {}
        Err(ConnRefused::OutOfMemory) => {
            seen.is_starved = true;
            if shuts {
                conn.shut();
            }
            if conn.waiting() != 0 || conn.ask(PING) != Err(ConnRefused::Failed) {
                seen.played = Played::Otherwise;
            }
        }
        _ => seen.played = Played::Otherwise,
    }
}

/// Polls until the end of the events, at most so many times. A refused `ask` is the last call of the link.
fn drive(task: &MockTask, conn: &mut End, shuts: bool, polls: u32) -> Seen {
    let mut seen = Seen {
        count: 0,
        played: Played::AsSaid,
        is_starved: false,
        is_short: false,
        has_ended: false,
    };
    for _ in 0..polls {
        let before = conn.link().written().len();
        let polled = task.enter(|cx| conn.poll_next(cx));
        if seen.is_starved && conn.link().written().len() != before {
            seen.played = Played::Otherwise;
        }
        match polled {
            Poll::Ready(Some(event)) => {
                let said = kind_of(&event);
                seen.hear(said);
                if said == Said::Upgraded {
                    ask(conn, &mut seen, shuts);
                }
            }
            Poll::Ready(None) => {
                seen.has_ended = true;
                break;
            }
            Poll::Pending => {}
        }
    }
    seen
}

/// Whether these bytes begin what the row writes. Where the stream was broken, others stand behind the upgrade.
fn begins_output(bytes: &[u8], is_short: bool) -> bool {
    match bytes.get(UPGRADE.len()..) {
        Some(behind) => bytes.starts_with(UPGRADE) && (is_short || ASKS.starts_with(behind)),
        None => UPGRADE.starts_with(bytes),
    }
}

/// Plays the row.
pub fn play(alloc: Global, task: &MockTask, shuts: bool) -> Played {
    let Some(mut conn) = connect(alloc) else {
        return Played::Refused;
    };
    let seen = drive(task, &mut conn, shuts, 100);
    let is_counted = conn.link().failures() == 0 || seen.played == Played::Refused;
    let is_written = begins_output(conn.link().written(), seen.is_short);
    if seen.is_whole() && is_counted && is_written {
        seen.played
    } else {
        Played::Otherwise
    }
}
