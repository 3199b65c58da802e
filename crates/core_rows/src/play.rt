//! Plays a row, and compares.

use crate::rows::{KEY, RESETS, Row, Said, UPGRADE};
use conn_core::{ConnAnswer, ConnRan, run};
use conn_log::{ConnEvent, ConnRefused};
use node_protocols::{FixedPayload, NodeHandler, NodeProtocols};
use peer_ids::PublicKey;
use std::alloc::Global;
use streams::Cause;

/// How a row went.
#[derive(Clone, Copy, Debug, PartialEq, Eq)]
pub enum Played {
    /// Each answer is the row's.
    AsSaid,
    /// Memory was refused, and what stands then is as said.
    Refused,
    Otherwise,
}

type Ran = ConnRan<NodeHandler>;

/// What each end writes before any byte comes.
const HEADER: &[u8] = b"\x13/multistream/1.0.0\n";

/// The bytes of each ping.
const PAYLOAD: [u8; 32] = [7; 32];

/// Runs a row, unless memory is refused before its first call or behind its last.
fn ran(alloc: Global, row: Row) -> Option<Ran> {
    let acts = row.acts(alloc).ok()?;
    let key = PublicKey::read(alloc, KEY).ok()?;
    let own = PublicKey::read(alloc, KEY).ok()?;
    let payloads = FixedPayload { payload: PAYLOAD };
    let protocols = NodeProtocols::new(alloc, own, "node/0.1.0", payloads).ok()?;
    run(alloc, row.role(), key, protocols, &acts).ok()
}

/// What an event says.
fn told(event: &ConnEvent<NodeHandler>) -> Said {
    match event {
        ConnEvent::Upgraded(_) => Said::Upgraded,
        ConnEvent::Agreed(number, index) => Said::Agreed(*number, *index),
        ConnEvent::Refused(number) => Said::Refused(*number),
        ConnEvent::Done(number, _) => Said::Done(*number),
        ConnEvent::Broken(number, Cause::Ended) => Said::EndedInTalk(*number),
        ConnEvent::Broken(number, _) => Said::Broken(*number),
        ConnEvent::Fault(_) => Said::Fault,
        ConnEvent::Shut => Said::Shut,
    }
}

/// Whether a handler met want of memory.
fn is_short(event: &ConnEvent<NodeHandler>) -> bool {
    match event {
        ConnEvent::Broken(_, Cause::Handler(fault)) => fault.number == 4 || fault.number == 7,
        _ => false,
    }
}

/// Goes through what a row says.
#[derive(Drop)]
struct Reader {
    /// What is still to be said.
    rest: &'static [Said],
    played: Played,
    /// The call was refused memory, so each later one fails.
    is_over: bool,
    /// It was told that the end is up: all of its upgrade was written.
    was_up: bool,
}

impl Reader {
    /// What an answer that tells nothing says.
    fn hear(&mut self, said: Said) {
        if self.is_over {
            if said != Said::Not(ConnRefused::Failed) {
                self.played = Played::Otherwise;
            }
        } else if said == Said::Not(ConnRefused::OutOfMemory) {
            self.played = Played::Refused;
            self.is_over = true;
        } else {
            self.expect(said);
        }
    }

    /// What is said is what comes next; what names the stream is left out once that was broken for want of memory.
    fn expect(&mut self, said: Said) {
        if said == Said::Upgraded {
            self.was_up = true;
        }
        let rest = self.rest;
        for (at, next) in rest.iter().enumerate() {
            if *next == said {
                self.rest = rest.get(at.saturating_add(1)..).unwrap_or(&[]);
                return;
            }
            if self.played != Played::Refused || !next.names_a_stream() {
                break;
            }
        }
        self.played = Played::Otherwise;
    }

    /// Whether all was said, but for what names the stream that was broken for want of memory.
    fn is_read(&self) -> bool {
        let is_short = self.played == Played::Refused;
        self.rest
            .iter()
            .all(|said| is_short && said.names_a_stream())
    }

    fn read(&mut self, answer: &ConnAnswer<NodeHandler>) {
        match answer {
            ConnAnswer::Events(events) => {
                for event in events {
                    if is_short(event) && self.played == Played::AsSaid {
                        self.played = Played::Refused;
                    } else {
                        self.hear(told(event));
                    }
                }
            }
            ConnAnswer::Stream(number) => self.hear(Said::Stream(*number)),
            ConnAnswer::Refused(refused) => self.hear(Said::Not(*refused)),
        }
    }
}

/// Whether the output is the row's, and the handlers are its. Where memory was refused to the end, the output begins
/// the row's, and has what was written before the call that met it; where it was refused to a handler, its stream was
/// reset.
fn are_left(ran: &Ran, row: Row, reader: &Reader) -> bool {
    let whole = row.output().iter().flat_map(|part| part.iter());
    let held = ran.handlers.iter().map(|(number, _)| *number);
    match reader.played {
        Played::AsSaid => ran.output.iter().eq(whole) && held.eq(row.held().iter().copied()),
        Played::Refused if reader.is_over => {
            let begins = ran
                .output
                .iter()
                .zip(whole)
                .all(|(one, other)| one == other);
            let written = if reader.was_up {
                UPGRADE.len()
            } else {
                HEADER.len()
            };
            begins && ran.output.len() >= written && ran.handlers.is_empty()
        }
        Played::Refused => {
            let is_up = ran.output.starts_with(UPGRADE);
            is_up
                && ran
                    .output
                    .windows(RESETS.len())
                    .any(|frame| frame == RESETS)
        }
        Played::Otherwise => false,
    }
}

/// Plays a row.
pub fn play(alloc: Global, row: Row) -> Played {
    let Some(ran) = ran(alloc, row) else {
        return Played::Refused;
    };
    let mut reader = Reader {
        rest: row.said(),
        played: Played::AsSaid,
        is_over: false,
        was_up: false,
    };
    for answer in &ran.answers {
        reader.read(answer);
    }
    let is_whole = reader.is_over || reader.is_read();
    if is_whole && are_left(&ran, row, &reader) {
        reader.played
    } else {
        Played::Otherwise
    }
}
