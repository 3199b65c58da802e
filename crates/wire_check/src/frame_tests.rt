//! Worked rows of headers, the numbers of codes, kinds and faults, and what is told apart.

use crate::asserts::{Fault, Told, are_faults, holds, same};
use std::process::Abort;
use std::test::*;
use yamux_frames::*;

/// A frame of the table: its bytes, and what they spell.
fn headers() -> [([u8; 12], Header); 6] {
    [
        (
            [0, 1, 0, 1, 0, 0, 0, 1, 0, 0, 0, 0],
            Header {
                kind: FrameKind::Window,
                flags: Header::SYN,
                stream: 1,
                length: 0,
            },
        ),
        (
            [0, 0, 0, 0, 0, 0, 0, 9, 0, 0, 0, 3],
            Header {
                kind: FrameKind::Payload,
                flags: 0,
                stream: 9,
                length: 3,
            },
        ),
        (
            [0, 2, 0, 2, 0, 0, 0, 0, 0, 0, 0, 7],
            Header {
                kind: FrameKind::Ping,
                flags: Header::ACK,
                stream: 0,
                length: 7,
            },
        ),
        (
            [0, 0, 0, 4, 0, 0, 0, 2, 0, 0, 0, 0],
            Header {
                kind: FrameKind::Payload,
                flags: Header::FIN,
                stream: 2,
                length: 0,
            },
        ),
        (
            [0, 1, 0, 8, 0, 0, 0, 2, 0, 0, 0, 0],
            Header {
                kind: FrameKind::Window,
                flags: Header::RST,
                stream: 2,
                length: 0,
            },
        ),
        (
            [0, 3, 255, 255, 1, 2, 3, 4, 255, 255, 255, 255],
            Header {
                kind: FrameKind::GoAway,
                flags: 65535,
                stream: 16909060,
                length: 4294967295,
            },
        ),
    ]
}

#[test]
fn codes_of_go_away(rt: HostRuntime) {
    same(&rt, "normal termination", Header::NORMAL_TERMINATION, 0);
    same(&rt, "protocol error", Header::PROTOCOL_ERROR, 1);
    same(&rt, "internal error", Header::INTERNAL_ERROR, 2);
}

#[test]
fn headers_are_read_and_written(rt: HostRuntime) {
    for (bytes, header) in headers() {
        same(&rt, bytes, Header::read(&bytes), Ok(header));
        same(&rt, header, header.write(), bytes);
    }
}

impl Fault for FrameFault {
    fn number(self) -> usize {
        self as usize
    }
}

static FAULTS: [Told<FrameFault>; 2] = [
    (
        FrameFault::BadVersion,
        1,
        "a frame has another version than 0",
    ),
    (FrameFault::BadType, 2, "a frame has an unknown type"),
];

fn is_copied<T: Clone + PartialEq + Drop>(value: &T) -> bool {
    match value.clone() {
        Ok(copy) => copy == *value,
        Err(_) => false,
    }
}

/// Each value is equal to its copy, and to no other of these values.
fn are_told_apart<T: Clone + PartialEq + Drop>(rt: &impl Abort, values: &[T]) {
    for (row, value) in values.iter().enumerate() {
        holds(rt, ("copy", row), is_copied(value));
        for (place, other) in values.iter().enumerate() {
            holds(rt, (row, place), (value == other) == (row == place));
        }
    }
}

#[test]
fn numbers_and_texts_of_faults(rt: HostRuntime) {
    are_faults(&rt, rt.alloc(), &FAULTS);
    are_told_apart(&rt, &[FrameFault::BadVersion, FrameFault::BadType]);
}

#[test]
fn numbers_of_kinds(rt: HostRuntime) {
    let kinds = [
        FrameKind::Payload,
        FrameKind::Window,
        FrameKind::Ping,
        FrameKind::GoAway,
    ];
    for (index, kind) in kinds.iter().enumerate() {
        same(&rt, *kind, *kind as usize, index);
    }
    are_told_apart(&rt, &kinds);
}

#[test]
fn cuts_are_told_apart(rt: HostRuntime) {
    let part = |stream, from, to, last| Cut::Part {
        stream,
        from,
        to,
        last,
    };
    let cuts = [
        Cut::More,
        part(1, 0, 2, false),
        part(3, 0, 2, false),
        part(1, 1, 2, false),
        part(1, 0, 3, false),
        part(1, 0, 2, true),
    ];
    are_told_apart(&rt, &cuts);
}

#[test]
fn headers_are_told_apart(rt: HostRuntime) {
    let header = Header {
        kind: FrameKind::Payload,
        flags: 0,
        stream: 1,
        length: 2,
    };
    let headers = [
        header,
        Header {
            kind: FrameKind::Ping,
            ..header
        },
        Header { flags: 4, ..header },
        Header {
            stream: 3,
            ..header
        },
        Header {
            length: 1,
            ..header
        },
    ];
    are_told_apart(&rt, &headers);
}
