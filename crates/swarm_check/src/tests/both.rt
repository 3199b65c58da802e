//! Two callers that dial, by `clients`.

use super::asserts::holds;
use super::peer;
use clients::swarm::{Dials, two_callers};
use peer_ids::PeerId;
use pool_state::{Config, ConnSide, Limits, Phase, Reply, Row};
use std::alloc::Global;
use std::marker::Brand;
use std::sync::Wait;
use std::test::*;
use swarm_calls::{BlankHistory, BlankLedgers, Closed, NewRefused};

/// Both dials on a new swarm.
fn play<R: Wait>(
    rt: &R,
    alloc: Global,
    config: Config,
    a: PeerId,
    b: PeerId,
) -> Result<(Dials, Closed), NewRefused> {
    two_callers::<Brand, Brand, Brand, Brand, Brand, Brand, Brand, Brand, Brand, R>(
        rt,
        alloc,
        config,
        BlankHistory::new(),
        BlankLedgers::new(),
        a,
        b,
    )
}

/// The row of a dialed connection.
fn row(conn: u32, peer: PeerId) -> Row {
    Row {
        conn,
        role: ConnSide::Dialer,
        phase: Phase::Pending,
        peer: Some(peer),
        ..Row::default()
    }
}

/// Whether connections 7 and 8 are listed behind 2 calls, and nothing else.
fn are_listed(dials: &Dials, closed: &Closed, a: PeerId, b: PeerId) -> bool {
    let listing = &dials.listing;
    let rows = [row(7, a), row(8, b)];
    let are_answered = dials.one == Reply::Conn(7) && dials.other == Reply::Conn(8);
    let are_rows = listing.front == 22 && listing.conns.as_slice() == rows.as_slice();
    are_answered && are_rows && closed.listing == *listing && closed.calls == 2
}

#[test]
fn both_are_listed(rt: HostRuntime) -> Result<(), Fail> {
    let limits = Limits::new(256, 8, 64, 64, 256, 256, 64).ok_or("in range")?;
    let config = Config {
        own: peer(0),
        limits,
        first_conn: 7,
        first_front: 20,
        allow_only: false,
    };
    let (a, b) = (peer(0x11), peer(0x22));
    let (dials, closed) = play(&rt, rt.alloc(), config, a, b).ok().ok_or("a swarm")?;
    holds(&rt, "two dials", are_listed(&dials, &closed, a, b));
    Ok(())
}
