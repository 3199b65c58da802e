//! What a pool call costs by the rows that stand, answered and refused, against a body that writes each row anew for
//! each call. Each figure is the least of some rounds, in processor time, and is written to standard error, since it
//! differs from run to run.
#![tactic(auto)]

ghost use Rattle.std.specs.Prelude.{◌<◌};

mod rewriting;

use crate::rewriting::Rewriting;
use peer_ids::PeerId;
use pool_state::{Call, Config, Limits, Pool, Reply};
use std::io::{self, Eprint};
use std::time::CpuClock;

/// How many calls are made in a round.
const CALLS: u32 = 2_000;

const ROUNDS: u32 = 9;

/// A body that makes pool calls.
pub trait Body {
    /// Makes the call.
    fn make(&mut self, call: &Call) -> Reply;
}

impl Body for Pool {
    fn make(&mut self, call: &Call) -> Reply {
        self.apply(*call)
    }
}

fn other() -> io::Error {
    io::Error::from(io::ErrorKind::Other)
}

/// The id of the Ed25519 key of 32 bytes that are all `byte`.
fn peer(byte: u8) -> PeerId {
    PeerId::of_ed25519(&[byte; 32])
}

/// The widest limits, for the node whose id is that of zeros.
fn config() -> io::Result<Config> {
    Ok(Config {
        own: peer(0),
        limits: Limits::new(256, 8, 64, 64, 256, 256, 64).ok_or(other())?,
        first_conn: 1,
        first_front: 0,
        allow_only: false,
    })
}

/// A pool in which connections 1 to `rows` are live, eight of each peer, and one stream of each is asked for.
fn pool_of(rows: u8) -> io::Result<Pool> {
    let mut pool = Pool::new(config()?);
    for row in 0..=rows {
        let conn = u32::from(row) + 1;
        pool.apply(Call::Accept);
        pool.apply(Call::Settle(conn, peer(row / 8 + 1)));
        pool.apply(Call::Ask(conn, 0));
    }
    Ok(pool)
}

/// Makes two calls in turn. Answers how many replies were the one that each is to have.
fn make_in_turn<B: Body>(body: &mut B, calls: &[Call; 2], reply: &Reply) -> u32 {
    let mut met: u32 = 0;
    for _ in 0..CALLS / 2 {
        for call in calls {
            if body.make(call) == *reply {
                met = met.saturating_add(1);
            }
        }
    }
    met
}

/// The least processor time of the rounds, in nanoseconds.
fn timed<B: Body>(
    clock: &impl CpuClock,
    body: &mut B,
    calls: &[Call; 2],
    reply: &Reply,
) -> io::Result<u128> {
    let mut least = u128::MAX;
    for _ in 0..ROUNDS {
        let start = clock.process_cpu_time()?.as_nanos();
        if make_in_turn(body, calls, reply) != CALLS {
            return Err(other());
        }
        let end = clock.process_cpu_time()?.as_nanos();
        least = least.min(end.saturating_sub(start));
    }
    Ok(least)
}

/// Writes what a call costs, and how many times as much by the other body.
fn measure(
    rt: &(impl CpuClock + Eprint),
    what: &str,
    rows: u8,
    calls: &[Call; 2],
    reply: &Reply,
) -> io::Result<()> {
    let time = timed(rt, &mut pool_of(rows)?, calls, reply)?;
    let rewriting = timed(rt, &mut Rewriting::of(pool_of(rows)?), calls, reply)?;
    let tenths = rewriting.saturating_mul(10) / time.max(1);
    eprintln!(rt;
        "{what} calls, {} rows: {} ns each, {}.{} times as fast as with each row written anew",
        u16::from(rows) + 1,
        time / u128::from(CALLS),
        tenths / 10,
        tenths % 10
    )
}

fn main(rt: HostRuntime) -> io::Result<()> {
    for rows in [0, 15, 63, 255] {
        let last = u32::from(rows) + 1;
        let answered = [Call::Ask(last, 0), Call::Done(last, 0)];
        measure(&rt, "answered", rows, &answered, &Reply::Done)?;
        let refused = [Call::Ask(0, 0), Call::Done(0, 0)];
        let reply = Reply::Refused(pool_state::Refusal::NoConn);
        measure(&rt, "refused", rows, &refused, &reply)?;
    }
    Ok(())
}
