//! Streams by themselves: whole ones however cut, and why they stop in words.

use crate::asserts;
use crate::echo::Echo;
use crate::lending::{is_there, lend};
use handlers::HandlerFault;
use ms_select::SelectFault;
use std::alloc::Global;
use std::test::*;
use streams::*;

/// The header, and behind it the proposal or the echo of x and of y, and a refusal.
const M_X: &[u8] = b"\x13/multistream/1.0.0\n\x03/x\n";

const M_Y: &[u8] = b"\x13/multistream/1.0.0\n\x03/y\n";

const M_NA: &[u8] = b"\x13/multistream/1.0.0\n\x03na\n";

/// How a stream begins: it asks for /x, which it numbers 2, with an eager handler or none, or it answers with /x and
/// /y.
enum Begins {
    Asks,
    /// The handler owes these bytes.
    AsksWith(&'static [u8]),
    Answers,
}

fn begun(alloc: Global, begins: &Begins) -> Result<Stream<Echo>, Stop> {
    match begins {
        Begins::Asks => Stream::ask(alloc, "/x", 2, None),
        Begins::AsksWith(early) => {
            let mut eager = Echo::new(alloc, 1024);
            if eager.owed.extend_from_slice(*early).is_err() {
                return Err(Stop::OutOfMemory);
            }
            Stream::ask(alloc, "/x", 2, Some(eager))
        }
        Begins::Answers => Stream::answer(alloc, &["/x", "/y"]),
    }
}

/// An input, on what both ends agree by it, so that a handler is handed what stands behind it, or by which fault the
/// talk stops the stream, and all output.
struct Row {
    begins: Begins,
    input: &'static [u8],
    agreed: Option<usize>,
    stop: Option<SelectFault>,
    output: &'static [u8],
}

static ROWS: [Row; 7] = [
    Row {
        begins: Begins::AsksWith(b"Early"),
        input: b"\x13/multistream/1.0.0\n\x03/x\nNext",
        agreed: Some(2),
        stop: None,
        output: b"\x13/multistream/1.0.0\n\x03/x\nEarlyNext",
    },
    Row {
        begins: Begins::Asks,
        input: b"\x13/multistream/1.0.0\n\x03/x\nNext",
        agreed: Some(2),
        stop: None,
        output: b"\x13/multistream/1.0.0\n\x03/x\nNext",
    },
    Row {
        begins: Begins::Answers,
        input: b"\x13/multistream/1.0.0\n\x03/z\n\x03/y\nPing",
        agreed: Some(1),
        stop: None,
        output: b"\x13/multistream/1.0.0\n\x03na\n\x03/y\nPing",
    },
    // A fault of the talk keeps its output.
    Row {
        begins: Begins::Asks,
        input: M_Y,
        agreed: None,
        stop: Some(SelectFault::NotProposed),
        output: M_X,
    },
    Row {
        begins: Begins::Asks,
        input: b"\x03/x\n",
        agreed: None,
        stop: Some(SelectFault::BadHeader),
        output: M_X,
    },
    Row {
        begins: Begins::Asks,
        input: b"\x13/multistream/1.0.0\n\x81\x08",
        agreed: None,
        stop: Some(SelectFault::BadLength),
        output: M_X,
    },
    Row {
        begins: Begins::Answers,
        input: b"\x13/multistream/1.0.0\n\x03/z\n\x00",
        agreed: None,
        stop: Some(SelectFault::BadLength),
        output: M_NA,
    },
];

/// What came of a stream.
#[derive(Drop)]
struct Came {
    stream: Stream<Echo>,
    agreed: Option<usize>,
    stop: Option<Stop>,
    output: Vec<u8>,
}

impl Came {
    /// Hands a piece to the part of the stream whose turn it is.
    fn hand(&mut self, alloc: Global, bytes: &[u8]) -> Result<(), Stop> {
        if !self.stream.talks() {
            return self.stream.take(bytes);
        }
        match self.stream.hear(bytes) {
            Ok(Heard::Agreed { index, used }) => {
                self.agreed = Some(index);
                if self.stream.awaits_handler() {
                    self.stream.serve(Echo::new(alloc, 1024));
                }
                self.stream.take(&bytes[used..])
            }
            Ok(_) => Ok(()),
            Err(stop) => Err(stop),
        }
    }

    /// Asks for output. Whether there is an answer.
    fn gives(&mut self, room: usize) -> bool {
        match self.stream.give(room) {
            Ok(given) => self.output.extend_from_slice(&given).is_ok(),
            Err(_) => false,
        }
    }

    /// Hands over the pieces, behind each of which it asks for output, and then asks for the rest.
    fn plays(&mut self, alloc: Global, input: &[u8], size: usize, room: usize) -> bool {
        let mut held = self.gives(room);
        for piece in input.chunks(size.max(1)) {
            if self.stop.is_none() {
                match self.hand(alloc, piece) {
                    Ok(()) => held = self.gives(room) && held,
                    Err(stop) => self.stop = Some(stop),
                }
            }
        }
        held && self.gives(1) && self.gives(1000)
    }

    /// The end comes, all is given, and the handler is handed out.
    fn ends(&mut self) -> bool {
        let is_told = self.stream.end() == Ok(()) && self.gives(1000);
        let is_whole = self.stream.closed() && self.stream.finished();
        is_told && is_whole && is_there(self.stream.finish())
    }

    fn is_said(&self, row: &Row) -> bool {
        let stop = match row.stop {
            Some(fault) => Some(Stop::Broken(Cause::Select(fault))),
            None => None,
        };
        self.stop == stop && self.agreed == row.agreed && self.output.as_slice() == row.output
    }

    fn is_as(&mut self, alloc: Global, row: &Row, size: usize, room: usize) -> bool {
        let is_played = self.plays(alloc, row.input, size, room);
        let is_ended = row.agreed.is_none() || self.ends();
        is_played && is_ended && self.is_said(row)
    }
}

fn fresh(alloc: Global, begins: &Begins) -> Option<Came> {
    match begun(alloc, begins) {
        Ok(stream) => Some(Came {
            stream,
            agreed: None,
            stop: None,
            output: Vec::new(alloc),
        }),
        Err(_) => None,
    }
}

fn holds(alloc: Global, row: &Row, size: usize, room: usize) -> bool {
    let came = fresh(alloc, &row.begins);
    lend(came, |came| came.is_as(alloc, row, size, room)) == Some(true)
}

#[test]
fn whole_streams_however_cut(rt: HostRuntime) {
    for (number, row) in ROWS.iter().enumerate() {
        for size in [1, 7, 1024] {
            for room in [0, 1, 1000] {
                let held = holds(rt.alloc(), row, size, room);
                asserts::holds(&rt, ("row, size and room", number, size, room), held);
            }
        }
    }
}

const WORDS: [(Stop, &str); 5] = [
    (
        Stop::Broken(Cause::Select(SelectFault::BadHeader)),
        "the stream is broken: no protocol is settled: the first message is not the header",
    ),
    (
        Stop::Broken(Cause::Handler(HandlerFault { number: 7 })),
        "the stream is broken: the handler of the stream gave up: fault 7",
    ),
    (
        Stop::Broken(Cause::Reset),
        "the stream is broken: the other end has reset the stream",
    ),
    (
        Stop::Broken(Cause::Ended),
        "the stream is broken: the stream ended before a protocol was settled",
    ),
    (Stop::OutOfMemory, "out of memory"),
];

#[test]
fn stops_in_words(rt: HostRuntime) {
    for (stop, words) in WORDS {
        asserts::holds(&rt, words, asserts::is_shown(rt.alloc(), &stop, words));
    }
}
