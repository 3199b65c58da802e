//! Two sessions, one of which delivers to its stream 1 what comes. It knows /x and /y, each an echo.

use crate::asserts;
use crate::echo::{Echo, Echoes, NAMES};
use crate::lending::{holds, lend, set};
use crate::stopping::{Why, stop_for};
use dispatch::Direction;
use ms_select::SelectFault;
use peer_ids::PeerId;
use routing::*;
use std::alloc::Global;
use std::test::*;
use streams::{Stop, Stream};
use yamux_session::{Event, Role, Session};

/// What either end writes to agree on /y.
const M_Y: &[u8] = b"\x13/multistream/1.0.0\n\x03/y\n";

const M_Y_HELLO: &[u8] = b"\x13/multistream/1.0.0\n\x03/y\nhello";

const HEADER: &[u8] = b"\x13/multistream/1.0.0\n";

const Y: &[u8] = b"\x03/y\n";

/// What the end that answers writes where it knows no name that it was asked for.
const M_NA: &[u8] = b"\x13/multistream/1.0.0\n\x03na\n";

/// What the other end does.
enum Does {
    Nothing,
    Writes(&'static [u8]),
    Closes,
}

/// Where the stream is, as an outcome told it.
enum Place {
    Going,
    Done,
    Refused,
    Broken(Why),
}

/// What the other end does, and what comes of it: on which protocol both agree so far, where the stream is, and what
/// the other end was told by it, unless that hangs on the cut.
struct Step {
    does: Does,
    agreed: Option<usize>,
    place: Place,
    told: Option<&'static [u8]>,
}

/// Who opens the stream, how much its handler may be handed at once, and what happens.
struct Script {
    direction: Direction,
    most: usize,
    steps: &'static [Step],
}

/// Whether the data of these events, joined, is this.
fn is_data(alloc: Global, events: &[Event], data: &[u8]) -> bool {
    let mut told = Vec::new(alloc);
    let mut held = true;
    for event in events {
        if let Event::Payload(_, bytes) = event {
            held = told.extend_from_slice(bytes.as_slice()).is_ok() && held;
        }
    }
    held && told.as_slice() == data
}

/// The end that delivers, and the other one. Stream 1 was opened.
#[derive(Drop)]
struct Pair {
    protocols: Echoes,
    direction: Direction,
    own: Session,
    other: Session,
    stream: Stream<Echo>,
    agreed: Option<usize>,
    outcome: Outcome<Echo>,
}

impl Pair {
    /// Opens stream 1.
    fn opens(&mut self) -> bool {
        match self.direction {
            Direction::Inbound => {
                let is_open = self.other.open_stream().is_ok();
                is_open && self.own.feed(&self.other.take_output()).is_ok()
            }
            Direction::Outbound => self.own.open_stream().is_ok(),
        }
    }

    fn delivers(&mut self, bytes: &[u8]) -> bool {
        let peer = PeerId::of_ed25519(&[0; 32]);
        let delivered = deliver(
            &mut self.own,
            1,
            &mut self.protocols,
            self.direction,
            peer,
            &mut self.stream,
            bytes,
        );
        match delivered {
            Ok(delivered) => {
                self.agreed = self.agreed.or(delivered.agreed);
                set(&mut self.outcome, delivered.outcome);
                true
            }
            Err(_) => false,
        }
    }

    /// The end is delivered, or credit alone.
    fn goes_on(&mut self, is_end: bool) -> bool {
        let outcome = if is_end {
            deliver_end(&mut self.own, 1, &mut self.stream)
        } else {
            deliver_credit(&mut self.own, 1, &mut self.stream)
        };
        match outcome {
            Ok(outcome) => {
                set(&mut self.outcome, outcome);
                true
            }
            Err(_) => false,
        }
    }

    /// What the other end wrote comes, and is delivered.
    fn comes(&mut self) -> bool {
        let told = self.own.feed(&self.other.take_output());
        holds(told, |events| self.delivers_all(events))
    }

    fn delivers_all(&mut self, events: &[Event]) -> bool {
        let mut held = true;
        for event in events {
            held = held
                && match event {
                    Event::Payload(_, data) => self.delivers(data.as_slice()),
                    Event::Ended(_) => self.goes_on(true),
                    _ => true,
                };
        }
        held
    }

    fn does(&mut self, does: &Does, size: usize) -> bool {
        match does {
            Does::Nothing => self.goes_on(false),
            Does::Writes(bytes) => {
                let mut held = true;
                for piece in bytes.chunks(size.max(1)) {
                    held = held && self.other.write(1, piece).is_ok() && self.comes();
                }
                held
            }
            Does::Closes => self.other.close(1).is_ok() && self.comes(),
        }
    }

    /// Whether the other end is told exactly this data.
    fn tells(&mut self, alloc: Global, data: &[u8]) -> bool {
        let told = self.other.feed(&self.own.take_output());
        holds(told, |events| is_data(alloc, events, data))
    }

    fn is_at(&self, place: &Place) -> bool {
        match &self.outcome {
            Outcome::Going => matches!(place, Place::Going),
            Outcome::Done(_) => matches!(place, Place::Done),
            Outcome::Refused => matches!(place, Place::Refused),
            Outcome::Broken(cause) =>
                matches!(place, Place::Broken(why) if stop_for(why) == Stop::Broken(*cause)),
        }
    }

    fn comes_to(&mut self, alloc: Global, step: &Step, size: usize) -> bool {
        let is_done = self.does(&step.does, size);
        let is_told = match step.told {
            Some(data) => self.tells(alloc, data),
            None => true,
        };
        is_done && is_told && self.agreed == step.agreed && self.is_at(&step.place)
    }

    /// Whether the stream is open, and all steps hold.
    fn plays(&mut self, alloc: Global, steps: &[Step], size: usize) -> bool {
        let mut held = self.opens();
        for step in steps {
            held = held && self.comes_to(alloc, step, size);
        }
        held
    }
}

static SCRIPTS: [Script; 6] = [
    // Each is served to its end.
    Script {
        direction: Direction::Inbound,
        most: 1024,
        steps: &[
            Step {
                does: Does::Nothing,
                agreed: None,
                place: Place::Going,
                told: Some(HEADER),
            },
            Step {
                does: Does::Writes(M_Y),
                agreed: Some(1),
                place: Place::Going,
                told: Some(Y),
            },
            Step {
                does: Does::Writes(b"hello"),
                agreed: Some(1),
                place: Place::Going,
                told: Some(b"hello"),
            },
            Step {
                does: Does::Closes,
                agreed: Some(1),
                place: Place::Done,
                told: Some(b""),
            },
        ],
    },
    Script {
        direction: Direction::Outbound,
        most: 1024,
        steps: &[
            Step {
                does: Does::Nothing,
                agreed: None,
                place: Place::Going,
                told: Some(M_Y),
            },
            Step {
                does: Does::Writes(M_Y_HELLO),
                agreed: Some(1),
                place: Place::Going,
                told: Some(b"hello"),
            },
            Step {
                does: Does::Closes,
                agreed: Some(1),
                place: Place::Done,
                told: Some(b""),
            },
        ],
    },
    // The other end doesn't know the name.
    Script {
        direction: Direction::Outbound,
        most: 1024,
        steps: &[
            Step {
                does: Does::Nothing,
                agreed: None,
                place: Place::Going,
                told: Some(M_Y),
            },
            Step {
                does: Does::Writes(M_NA),
                agreed: None,
                place: Place::Refused,
                told: Some(b""),
            },
        ],
    },
    // The end comes within the talk.
    Script {
        direction: Direction::Inbound,
        most: 1024,
        steps: &[
            Step {
                does: Does::Writes(HEADER),
                agreed: None,
                place: Place::Going,
                told: Some(HEADER),
            },
            Step {
                does: Does::Closes,
                agreed: None,
                place: Place::Broken(Why::Ended),
                told: Some(b""),
            },
        ],
    },
    // The talk has a fault.
    Script {
        direction: Direction::Inbound,
        most: 1024,
        steps: &[Step {
            does: Does::Writes(b"\x01x"),
            agreed: None,
            place: Place::Broken(Why::Select(SelectFault::NoNewline)),
            told: None,
        }],
    },
    // The handler fails by what stands behind the talk in one piece: the protocol is told all the same.
    Script {
        direction: Direction::Inbound,
        most: 0,
        steps: &[Step {
            does: Does::Writes(b"\x13/multistream/1.0.0\n\x03/y\nh"),
            agreed: Some(1),
            place: Place::Broken(Why::Handler(7)),
            told: None,
        }],
    },
];

fn begun(alloc: Global, direction: Direction) -> Result<Stream<Echo>, Stop> {
    match direction {
        Direction::Inbound => Stream::answer(alloc, &NAMES),
        Direction::Outbound => Stream::ask(alloc, NAMES[1], 1, None),
    }
}

fn two_ends(alloc: Global, script: &Script, stream: Stream<Echo>) -> Pair {
    let (own, other) = match script.direction {
        Direction::Inbound => (Role::Server, Role::Client),
        Direction::Outbound => (Role::Client, Role::Server),
    };
    Pair {
        protocols: Echoes {
            alloc,
            most: script.most,
        },
        direction: script.direction,
        own: Session::new(alloc, own),
        other: Session::new(alloc, other),
        stream,
        agreed: None,
        outcome: Outcome::Going,
    }
}

fn fresh(alloc: Global, script: &Script) -> Option<Pair> {
    match begun(alloc, script.direction) {
        Ok(stream) => Some(two_ends(alloc, script, stream)),
        Err(_) => None,
    }
}

fn is_played(alloc: Global, script: &Script, size: usize) -> bool {
    let pair = fresh(alloc, script);
    lend(pair, |pair| pair.plays(alloc, script.steps, size)) == Some(true)
}

#[test]
fn scripts_in_pieces(rt: HostRuntime) {
    for (number, script) in SCRIPTS.iter().enumerate() {
        for size in [1, 7, 1024] {
            let held = is_played(rt.alloc(), script, size);
            asserts::holds(&rt, ("script", number, "in pieces of", size), held);
        }
    }
}
