//! The faults of handlers, of ping and of identify: their numbers, names and sentences, and which are equal.

use crate::asserts::holds;
use handlers::HandlerFault;
use identify_h::IdentifyFault;
use ping_h::PingFault;
use std::alloc::Global;
use std::fmt::{Debug, Display};
use std::test::*;

/// A fault, its number, and its name and sentence.
type Row<F> = (F, u8, &'static str);

/// Whether a fault is told so, and is equal to that of its number alone.
fn is_told<F: Debug + Display + PartialEq + Copy + Drop>(
    alloc: Global,
    row: &Row<F>,
    all: &[Row<F>],
) -> bool {
    let (fault, number, text) = row;
    let mut held = match format!(in alloc; "{fault:?}: {fault}") {
        Ok(told) => told.as_str() == *text,
        Err(_) => false,
    };
    for (other, place, _) in all.iter() {
        held = held && (fault == other) == (number == place);
    }
    held
}

// ---- handlers

const HANDLERS: [Row<HandlerFault>; 3] = [
    (
        HandlerFault { number: 0 },
        0,
        "HandlerFault { number: 0 }: the handler of the stream gave up: fault 0",
    ),
    (
        HandlerFault { number: 7 },
        7,
        "HandlerFault { number: 7 }: the handler of the stream gave up: fault 7",
    ),
    (
        HandlerFault { number: 255 },
        255,
        "HandlerFault { number: 255 }: the handler of the stream gave up: fault 255",
    ),
];

#[test]
fn a_fault_says_its_number(rt: HostRuntime) {
    for row in HANDLERS.iter() {
        holds(&rt, row.0, is_told(rt.alloc(), row, &HANDLERS));
    }
}

#[test]
fn faults_are_told_apart_by_their_numbers(rt: HostRuntime) {
    for number in 0..=255u8 {
        for other in 0..=255u8 {
            let is_same = HandlerFault { number } == HandlerFault { number: other };
            holds(&rt, ("faults", number, other), is_same == (number == other));
        }
    }
}

// ---- ping

static PINGS: [Row<PingFault>; 4] = [
    (
        PingFault::Failed,
        1,
        "Failed: the ping failed or ended before",
    ),
    (
        PingFault::WrongEcho,
        2,
        "WrongEcho: the echo differs from the ping",
    ),
    (PingFault::Cut, 3, "Cut: the stream ended within a round"),
    (PingFault::OutOfMemory, 4, "OutOfMemory: out of memory"),
];

#[test]
fn faults_of_ping(rt: HostRuntime) {
    for row in PINGS.iter() {
        let is_numbered = row.0 as u8 == row.1;
        holds(&rt, row.0, is_numbered && is_told(rt.alloc(), row, &PINGS));
    }
}

// ---- identify

static IDENTIFIES: [Row<IdentifyFault>; 7] = [
    (
        IdentifyFault::Failed,
        1,
        "Failed: identify failed or ended before",
    ),
    (
        IdentifyFault::TooLong,
        2,
        "TooLong: the messages are too long",
    ),
    (
        IdentifyFault::TooMany,
        3,
        "TooMany: there are too many messages",
    ),
    (IdentifyFault::Wire, 4, "Wire: a message is badly spelt"),
    (
        IdentifyFault::OtherKey,
        5,
        "OtherKey: the key is not that of the peer",
    ),
    (
        IdentifyFault::Cut,
        6,
        "Cut: the stream ended within a message",
    ),
    (IdentifyFault::OutOfMemory, 7, "OutOfMemory: out of memory"),
];

#[test]
fn faults_of_identify(rt: HostRuntime) {
    for row in IDENTIFIES.iter() {
        let is_numbered = row.0 as u8 == row.1;
        let is_told = is_told(rt.alloc(), row, &IDENTIFIES);
        holds(&rt, row.0, is_numbered && is_told);
    }
}
