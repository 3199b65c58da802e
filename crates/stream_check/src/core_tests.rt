//! A dialer that knows no protocol, from its first call to its last; a listener whose handlers are never finished; and
//! a dialer whose handlers give up.

use crate::asserts;
use crate::counting::{Counting, Countings, NONE};
use crate::greeting::{KEY, OTHER};
use crate::lending::holds;
use conn_core::*;
use conn_log::ConnEvent;
use peer_ids::PublicKey;
use std::alloc::{AllocError, Global};
use std::cell::Cell;
use std::rc::Rc;
use std::test::*;
use upgrade::ConnRole;

/// All that this end writes.
const OUTPUT: &[u8] = b"\x13/multistream/1.0.0\n\x11/plaintext/2.0.0\n\
    \x10\x0a\x07\0\x05\x08\x02\x12\x01\x05\x12\x05\x08\x02\x12\x01\x05\x13/multistream/1.0.0\n\x0d/yamux/1.0.0\n";

/// The other end opens the stream 1 for `/mute`, and ends it at once.
const OPENS_1: &[u8] = b"\0\0\0\x05\0\0\0\x01\0\0\0\x1b\x13/multistream/1.0.0\n\x06/mute\n";

const OPENS_3: &[u8] = b"\0\0\0\x05\0\0\0\x03\0\0\0\x1b\x13/multistream/1.0.0\n\x06/mute\n";

/// It opens the stream 3 for `/mute`, and doesn't end it.
const OPENS_3_ALONE: &[u8] = b"\0\0\0\x01\0\0\0\x03\0\0\0\x1b\x13/multistream/1.0.0\n\x06/mute\n";

/// The same of the stream 2.
const OPENS_2: &[u8] = b"\0\0\0\x01\0\0\0\x02\0\0\0\x1b\x13/multistream/1.0.0\n\x06/mute\n";

/// It opens the stream 3, and begins its talk.
const BEGINS_3: &[u8] = b"\0\0\0\x01\0\0\0\x03\0\0\0\x14\x13/multistream/1.0.0\n";

/// It opens the stream 3, and spoils its talk.
const SPOILS_3: &[u8] = b"\0\0\0\x01\0\0\0\x03\0\0\0\x14\x13/multistream/2.0.0\n";

/// RST of the stream 3.
const RESETS_3: &[u8] = b"\0\x01\0\x08\0\0\0\x03\0\0\0\0";

/// What is done: the first protocol is asked for, bytes come, or the input ends.
enum Does {
    Ask,
    Feed(&'static [u8]),
    Ended,
}

/// What is told and answered, and held at the end: an event by the letter of its kind and its stream, a stream that is
/// opened, the number of a refusal, the stream of a handler. It is ANSWER that begins the answer of a call.
type Heard = (u8, u32);

const ANSWER: Heard = (b'/', 0);

const UPGRADED: Heard = (b'U', 0);

const SHUT: Heard = (b'S', 0);

/// A run: what it hears, the handlers that are held at its end, in the order in which they were made, and all output,
/// where that is compared.
struct Script {
    role: ConnRole,
    is_known: bool,
    gives_up: bool,
    does: &'static [Does],
    heard: &'static [Heard],
    output: Option<&'static [u8]>,
}

/// A listener whose handlers are never finished.
const LISTENS: Script = Script {
    role: ConnRole::Listener,
    is_known: true,
    gives_up: false,
    does: &[],
    heard: &[],
    output: None,
};

static SCRIPTS: [Script; 7] = [
    // No protocol is known. An empty piece is answered by nothing; the refusals are NotUp, BadIndex and Failed.
    Script {
        role: ConnRole::Dialer,
        is_known: false,
        gives_up: false,
        does: &[
            Does::Ask,
            Does::Feed(b""),
            Does::Feed(OTHER),
            Does::Feed(b""),
            Does::Ask,
            Does::Ended,
            Does::Ended,
        ],
        heard: &[
            ANSWER,
            (b'r', 2),
            ANSWER,
            ANSWER,
            UPGRADED,
            ANSWER,
            ANSWER,
            (b'r', 3),
            ANSWER,
            SHUT,
            ANSWER,
            (b'r', 1),
        ],
        output: Some(OUTPUT),
    },
    // What is met within an ask is told by the next call, before all else.
    Script {
        role: ConnRole::Dialer,
        is_known: true,
        gives_up: true,
        does: &[
            Does::Feed(OTHER),
            Does::Ask,
            Does::Feed(OPENS_2),
            Does::Ask,
            Does::Ended,
        ],
        heard: &[
            ANSWER,
            UPGRADED,
            ANSWER,
            (b'o', 1),
            ANSWER,
            (b'B', 1),
            (b'A', 2),
            (b'B', 2),
            ANSWER,
            (b'o', 3),
            ANSWER,
            (b'B', 3),
            SHUT,
        ],
        output: None,
    },
    // Both ends end the streams 3 and 1 while their handlers are not finished; then one or both are opened anew.
    Script {
        does: &[
            Does::Feed(OTHER),
            Does::Feed(OPENS_3),
            Does::Feed(OPENS_1),
            Does::Feed(OPENS_3),
            Does::Feed(OPENS_1),
        ],
        heard: &[
            ANSWER,
            UPGRADED,
            ANSWER,
            (b'A', 3),
            ANSWER,
            (b'A', 1),
            ANSWER,
            (b'A', 3),
            ANSWER,
            (b'A', 1),
            (b'h', 3),
            (b'h', 1),
            (b'h', 3),
            (b'h', 1),
        ],
        ..LISTENS
    },
    Script {
        does: &[
            Does::Feed(OTHER),
            Does::Feed(OPENS_3),
            Does::Feed(OPENS_1),
            Does::Feed(OPENS_3_ALONE),
        ],
        heard: &[
            ANSWER,
            UPGRADED,
            ANSWER,
            (b'A', 3),
            ANSWER,
            (b'A', 1),
            ANSWER,
            (b'A', 3),
            (b'h', 3),
            (b'h', 1),
            (b'h', 3),
        ],
        ..LISTENS
    },
    // Where it is broken, or reset, within its talk, no handler was made for it, and that of its number stays.
    Script {
        does: &[
            Does::Feed(OTHER),
            Does::Feed(OPENS_3),
            Does::Feed(OPENS_1),
            Does::Feed(SPOILS_3),
        ],
        heard: &[
            ANSWER,
            UPGRADED,
            ANSWER,
            (b'A', 3),
            ANSWER,
            (b'A', 1),
            ANSWER,
            (b'B', 3),
            (b'h', 3),
            (b'h', 1),
        ],
        ..LISTENS
    },
    Script {
        does: &[
            Does::Feed(OTHER),
            Does::Feed(OPENS_3),
            Does::Feed(OPENS_1),
            Does::Feed(BEGINS_3),
            Does::Feed(RESETS_3),
        ],
        heard: &[
            ANSWER,
            UPGRADED,
            ANSWER,
            (b'A', 3),
            ANSWER,
            (b'A', 1),
            ANSWER,
            ANSWER,
            (b'B', 3),
            (b'h', 3),
            (b'h', 1),
        ],
        ..LISTENS
    },
    // Behind its talk its own goes.
    Script {
        does: &[
            Does::Feed(OTHER),
            Does::Feed(OPENS_3),
            Does::Feed(OPENS_1),
            Does::Feed(OPENS_3_ALONE),
            Does::Feed(RESETS_3),
        ],
        heard: &[
            ANSWER,
            UPGRADED,
            ANSWER,
            (b'A', 3),
            ANSWER,
            (b'A', 1),
            ANSWER,
            (b'A', 3),
            ANSWER,
            (b'B', 3),
            (b'h', 3),
            (b'h', 1),
        ],
        ..LISTENS
    },
];

fn acts(alloc: Global, all: &[Does]) -> Result<Vec<ConnAct>, AllocError> {
    let mut acts = Vec::new(alloc);
    for does in all {
        let act = match does {
            Does::Ask => ConnAct::Ask(0),
            Does::Feed(bytes) => ConnAct::Feed(Vec::from_slice(alloc, *bytes)?),
            Does::Ended => ConnAct::Ended,
        };
        acts.push(act)?;
    }
    Ok(acts)
}

fn told(event: &ConnEvent<Counting>) -> Heard {
    match event {
        ConnEvent::Upgraded(_) => UPGRADED,
        ConnEvent::Agreed(number, _) => (b'A', *number),
        ConnEvent::Broken(number, _) => (b'B', *number),
        ConnEvent::Shut => SHUT,
        _ => (b'?', 0),
    }
}

fn note(heard: &mut Vec<Heard>, answer: &ConnAnswer<Counting>) -> Result<(), AllocError> {
    heard.push(ANSWER)?;
    match answer {
        ConnAnswer::Events(events) => {
            for event in events.iter() {
                heard.push(told(event))?;
            }
        }
        ConnAnswer::Stream(number) => heard.push((b'o', *number))?,
        ConnAnswer::Refused(refused) => heard.push((b'r', u32::from(*refused as u8)))?,
    }
    Ok(())
}

fn note_all(heard: &mut Vec<Heard>, ran: &ConnRan<Counting>) -> Result<(), AllocError> {
    for answer in ran.answers.iter() {
        note(heard, answer)?;
    }
    for (number, _) in ran.handlers.iter() {
        heard.push((b'h', *number))?;
    }
    Ok(())
}

/// Whether the calls are answered, the handlers held and the bytes written as the script says.
fn is_as_said(alloc: Global, ran: &ConnRan<Counting>, script: &Script) -> bool {
    let mut heard = Vec::new(alloc);
    let is_heard = note_all(&mut heard, ran).is_ok() && heard.as_slice() == script.heard;
    let is_written = match script.output {
        Some(output) => ran.output.as_slice() == output,
        None => true,
    };
    is_heard && is_written
}

fn runs_as(alloc: Global, script: &Script, acts: &[ConnAct]) -> bool {
    match (PublicKey::read(alloc, KEY), Rc::new(alloc, Cell::new(NONE))) {
        (Ok(key), Ok(counts)) => {
            let protocols = Countings {
                alloc,
                counts,
                is_known: script.is_known,
                is_eager: script.gives_up,
                closes: !script.gives_up,
                failing: if script.gives_up { b'g' } else { 0 },
            };
            let ran = run(alloc, script.role, key, protocols, acts);
            holds(ran, |ran| is_as_said(alloc, ran, script))
        }
        _ => false,
    }
}

fn is_so(alloc: Global, script: &Script) -> bool {
    match acts(alloc, script.does) {
        Ok(acts) => runs_as(alloc, script, &acts),
        Err(_) => false,
    }
}

#[test]
fn runs(rt: HostRuntime) {
    for (number, script) in SCRIPTS.iter().enumerate() {
        asserts::holds(&rt, ("run", number), is_so(rt.alloc(), script));
    }
}
