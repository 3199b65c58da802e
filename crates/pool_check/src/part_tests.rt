//! Rows of the parts of a pool: agents, limits and refusals.

use crate::all_hold;
use crate::pool_tests::limits;
use pool_state::{Agent, Limits, Refusal};
use std::test::*;

/// A name, and whether it is an agent's.
static AGENTS: [(&[u8], bool); 6] = [
    (b"node/1.0.0", true),
    (&[b'~'; 64], true),
    (&[b'~'; 65], false),
    (&[], false),
    (&[0x1f], false),
    (&[0x7f], false),
];

fn is_name(name: &[u8], good: bool) -> bool {
    match Agent::from_bytes(name) {
        Some(agent) => good && agent.as_bytes() == name,
        None => !good,
    }
}

fn names_held() -> usize {
    let mut held = 0usize;
    for (row, (name, good)) in AGENTS.iter().enumerate() {
        if held == row && is_name(*name, *good) {
            held = held.saturating_add(1);
        }
    }
    held
}

#[test]
fn agents_have_printable_names(rt: HostRuntime) {
    all_hold(&rt, names_held(), 6);
}

/// Limits, and whether each is in range.
static LIMITS: [([usize; 7], bool); 11] = [
    ([1, 1, 1, 0, 0, 0, 0], true),
    ([257, 8, 64, 64, 256, 256, 64], false),
    ([0, 8, 64, 64, 256, 256, 64], false),
    ([64, 9, 64, 64, 256, 256, 64], false),
    ([64, 0, 64, 64, 256, 256, 64], false),
    ([64, 8, 65, 64, 256, 256, 64], false),
    ([64, 8, 0, 64, 256, 256, 64], false),
    ([64, 8, 64, 65, 256, 256, 64], false),
    ([64, 8, 64, 64, 257, 256, 64], false),
    ([64, 8, 64, 64, 256, 257, 64], false),
    ([64, 8, 64, 64, 256, 256, 65], false),
];

fn limits_held() -> usize {
    let mut held = 0usize;
    for (row, (of, good)) in LIMITS.iter().enumerate() {
        if held == row && limits(*of).is_some() == *good {
            held = held.saturating_add(1);
        }
    }
    held
}

#[test]
fn limits_have_ranges(rt: HostRuntime) {
    all_hold(&rt, limits_held(), 11);
}

#[test]
fn common_limits(rt: HostRuntime) {
    let common = Limits::default();
    let of = [
        common.conns,
        common.per_peer,
        common.streams,
        common.blocked,
        common.inbound,
        common.outbound,
        common.allowed,
    ];
    assert!(rt; of == [64, 8, 64, 64, 256, 256, 64]);
    assert!(rt; limits(of) == Some(common));
}

static REFUSALS: [(Refusal, u8); 19] = [
    (Refusal::Spent, 1),
    (Refusal::OutOfMemory, 2),
    (Refusal::NoConn, 3),
    (Refusal::Closing, 4),
    (Refusal::NotPending, 5),
    (Refusal::NotLive, 6),
    (Refusal::BadProtocol, 7),
    (Refusal::SelfPeer, 8),
    (Refusal::Mismatch, 9),
    (Refusal::Blocked, 10),
    (Refusal::Full, 11),
    (Refusal::PeerFull, 12),
    (Refusal::StreamsFull, 13),
    (Refusal::NothingAsked, 14),
    (Refusal::BlockFull, 15),
    (Refusal::IdsExhausted, 16),
    (Refusal::SideFull, 17),
    (Refusal::NotAllowed, 18),
    (Refusal::AllowFull, 19),
];

fn numbers_held() -> usize {
    let mut held = 0usize;
    for (row, (refusal, number)) in REFUSALS.iter().enumerate() {
        if held == row && refusal.number() == *number {
            held = held.saturating_add(1);
        }
    }
    held
}

#[test]
fn refusals_have_numbers(rt: HostRuntime) {
    all_hold(&rt, numbers_held(), 19);
}
