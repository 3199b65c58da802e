use crate::asserts::{Fault, Told, are_faults, holds, same};
use std::alloc::{AllocError, Global};
use std::test::*;
use varint_proto::*;

// ---- writing

/// Numbers, and how each is taken and what is written so far.
static WRITES: [(u64, Result<(), VarintRefused>, &[u8]); 3] = [
    (300, Ok(()), &[0xac, 0x02]),
    (1 << 63, Err(VarintRefused::TooLarge), &[0xac, 0x02]),
    (
        (1 << 63) - 1,
        Ok(()),
        &[
            0xac, 0x02, 0xff, 0xff, 0xff, 0xff, 0xff, 0xff, 0xff, 0xff, 0x7f,
        ],
    ),
];

/// How many rows hold, from the first on.
fn written(alloc: Global) -> usize {
    let mut out = Vec::new(alloc);
    for (row, (number, outcome, bytes)) in WRITES.iter().enumerate() {
        if write_varint(&mut out, *number) != *outcome || out.as_slice() != *bytes {
            return row;
        }
    }
    WRITES.len()
}

#[test]
fn writes_the_shortest_spelling(rt: HostRuntime) {
    same(&rt, "so many rows hold", written(rt.alloc()), 3);
}

fn has_fields(alloc: Global) -> Result<bool, AllocError> {
    let mut out = Vec::new(alloc);
    write_number(&mut out, 1, 300)?;
    write_body(&mut out, 2, b"ab")?;
    Ok(out.as_slice() == [0x08, 0xac, 0x02, 0x12, 0x02, b'a', b'b'].as_slice())
}

#[test]
fn writes_fields(rt: HostRuntime) {
    same(&rt, "fields", has_fields(rt.alloc()), Ok(true));
}

// ---- reading

static VARINTS: [(&[u8], Result<Option<(u64, usize)>, WireFault>); 8] = [
    (&[0xac, 0x02], Ok(Some((300, 2)))),
    (&[0x80], Ok(None)),
    (&[], Ok(None)),
    (&[0x80, 0x00], Err(WireFault::NotShortest)),
    (&[0xff; 9], Err(WireFault::TooLong)),
    (
        &[0xff, 0xff, 0xff, 0xff, 0xff, 0xff, 0xff, 0xff, 0x7f],
        Ok(Some(((1 << 63) - 1, 9))),
    ),
    (&[0x00, 0x01], Ok(Some((0, 1)))),
    (&[0x7f, 0x80], Ok(Some((127, 1)))),
];

#[test]
fn reads_multiformats_varints(rt: HostRuntime) {
    for (row, (bytes, outcome)) in VARINTS.iter().enumerate() {
        same(&rt, ("row", row), read_varint(*bytes), *outcome);
    }
}

// ---- messages that come in

/// The bytes used, and whether the message is whole, or the fault.
type Came = Result<(usize, bool), IncomingRefused>;

fn heard(incoming: &mut Incoming, input: &[u8], size: usize) -> Came {
    let mut used = 0usize;
    let mut whole = false;
    for piece in input.chunks(size.max(1)) {
        let step = incoming.feed(piece)?;
        used = used.saturating_add(step.0);
        whole = step.1;
    }
    Ok((used, whole))
}

/// An input, what a message of at most 4 bytes came to, and its body.
static INPUTS: [(&[u8], Came, &[u8]); 8] = [
    (b"\x03abcd", Ok((4, true)), b"abc"),
    (b"\x03ab", Ok((3, false)), b"ab"),
    (b"\x00a", Ok((1, true)), b""),
    (b"\xac", Ok((1, false)), b""),
    (b"", Ok((0, false)), b""),
    (b"\x05abcde", Err(IncomingRefused::TooLong), b""),
    (b"\x80\x00a", Err(IncomingRefused::BadLength), b""),
    (&[0xff; 9], Err(IncomingRefused::BadLength), b""),
];

fn comes_to(alloc: Global, input: &[u8], size: usize, outcome: Came, body: &[u8]) -> bool {
    let mut incoming = Incoming::new(alloc, 4);
    let came = heard(&mut incoming, input, size);
    let is_as = came == outcome && incoming.body() == body;
    match outcome {
        Ok((_, whole)) => is_as && incoming.is_whole() == whole,
        Err(_) => {
            let has_failed = incoming.feed(b"a") == Err(IncomingRefused::Failed);
            is_as && !incoming.is_whole() && has_failed
        }
    }
}

#[test]
fn reads_messages_however_they_are_cut(rt: HostRuntime) {
    for (row, (input, outcome, body)) in INPUTS.iter().enumerate() {
        for size in [1, 2, 1024] {
            let held = comes_to(rt.alloc(), *input, size, *outcome, *body);
            holds(&rt, ("row", row, "in pieces of", size), held);
        }
    }
}

/// What is done with messages that come in.
enum Does {
    /// The bytes come: how many are used, and whether the message is whole.
    Feed(&'static [u8], Came),
    /// The bytes of a length come: how many are used, and which length is known then.
    Length(&'static [u8], usize, Option<usize>),
    /// The next message begins, of at most so many bytes.
    Next(usize),
    /// The message is at its start, or not.
    Starts(bool),
    Body(&'static [u8]),
}

static STEPS: [Does; 23] = [
    Does::Starts(true),
    Does::Feed(b"\x02ab\x03cde", Ok((3, true))),
    Does::Feed(b"\x03cde", Ok((0, true))),
    Does::Next(3),
    Does::Starts(true),
    Does::Length(b"\x03cde", 1, Some(3)),
    Does::Starts(false),
    Does::Feed(b"cde", Ok((3, true))),
    Does::Body(b"cde"),
    // The next message may begin within a length, and within a body: what came is dropped.
    Does::Next(4),
    Does::Feed(b"\xac", Ok((1, false))),
    Does::Starts(false),
    Does::Next(4),
    Does::Starts(true),
    Does::Feed(b"\x02a", Ok((2, false))),
    Does::Next(4),
    Does::Body(b""),
    Does::Feed(b"\x01b", Ok((2, true))),
    Does::Body(b"b"),
    Does::Next(1),
    Does::Feed(b"\x02", Err(IncomingRefused::TooLong)),
    Does::Next(4),
    Does::Feed(b"\x01", Err(IncomingRefused::Failed)),
];

fn has_body(incoming: &Incoming, body: &[u8]) -> bool {
    incoming.body() == body
}

fn goes(incoming: &mut Incoming, does: &Does) -> bool {
    match does {
        Does::Feed(bytes, came) => incoming.feed(*bytes) == *came,
        Does::Length(bytes, used, known) => {
            incoming.feed_length(*bytes) == Ok(*used) && incoming.announced() == *known
        }
        Does::Next(limit) => {
            incoming.begin_next(*limit);
            true
        }
        Does::Starts(starts) => incoming.is_at_start() == *starts,
        Does::Body(body) => has_body(incoming, *body),
    }
}

/// How many steps go so.
fn gone(alloc: Global) -> usize {
    let mut incoming = Incoming::new(alloc, 4);
    for (row, does) in STEPS.iter().enumerate() {
        if !goes(&mut incoming, does) {
            return row;
        }
    }
    STEPS.len()
}

#[test]
fn reads_one_message_after_another(rt: HostRuntime) {
    same(&rt, "so many steps go so", gone(rt.alloc()), STEPS.len());
}

// ---- faults and refusals

impl Fault for WireFault {
    fn number(self) -> usize {
        self as usize
    }
}

static FAULTS: [Told<WireFault>; 5] = [
    (WireFault::TooLong, 1, "a varint is too long"),
    (WireFault::NotShortest, 2, "a varint has a shorter spelling"),
    (WireFault::Cut, 3, "the bytes end within a field"),
    (WireFault::BadNumber, 4, "a field has a number out of range"),
    (WireFault::BadWire, 5, "a field has an unknown wire type"),
];

impl Fault for VarintRefused {
    fn number(self) -> usize {
        self as usize
    }
}

static REFUSALS: [Told<VarintRefused>; 2] = [
    (
        VarintRefused::TooLarge,
        1,
        "a number of 2^63 or more has no varint",
    ),
    (VarintRefused::OutOfMemory, 2, "out of memory"),
];

impl Fault for IncomingRefused {
    fn number(self) -> usize {
        self as usize
    }
}

static REFUSED_MESSAGES: [Told<IncomingRefused>; 4] = [
    (IncomingRefused::Failed, 1, "the message failed before"),
    (
        IncomingRefused::BadLength,
        2,
        "the length of the message is badly spelt",
    ),
    (IncomingRefused::TooLong, 3, "the message is too long"),
    (IncomingRefused::OutOfMemory, 4, "out of memory"),
];

#[test]
fn numbers_and_texts_of_faults_and_refusals(rt: HostRuntime) {
    are_faults(&rt, rt.alloc(), &FAULTS);
    are_faults(&rt, rt.alloc(), &REFUSALS);
    are_faults(&rt, rt.alloc(), &REFUSED_MESSAGES);
}
