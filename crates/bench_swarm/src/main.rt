//! What a swarm's calls and listings cost, in one thread and in several, against a pool and an `Arc` of its listing
//! that a plain mutex guards. The figures are written to standard error, since they differ from run to run.
#![tactic(auto)]

mod locked;
mod plan;
mod race;
mod shared;

use crate::plan::{Plan, Work};
use peer_ids::PeerId;
use pool_state::{Config, Limits};
use std::alloc::Global;
use std::io::{self, Eprint};
use std::rt::Clock;
use std::sync::Wait;
use std::thread::Threads;

/// How many milliseconds one thread is measured, and several.
const ONE: u128 = 10;

const SEVERAL: u128 = 100;

const ROUNDS: u32 = 5;

/// An error of no kind of its own.
pub fn other() -> io::Error {
    io::Error::from(io::ErrorKind::Other)
}

/// The id of the Ed25519 key of 32 bytes that are all `byte`.
pub fn peer(byte: u8) -> PeerId {
    PeerId::of_ed25519(&[byte; 32])
}

/// The peer of the connections that come and go.
pub fn guest() -> PeerId {
    peer(0x77)
}

fn config() -> io::Result<Config> {
    let limits = Limits::new(256, 8, 64, 64, 256, 256, 64).ok_or(other())?;
    Ok(Config {
        own: peer(0),
        limits,
        first_conn: 1,
        first_front: 0,
        allow_only: false,
    })
}

/// What one thread is measured by: a swarm, a pool under a mutex, or that lock alone.
#[derive(Clone, Copy)]
enum Side {
    Swarm,
    Mutex,
    Lock,
}

/// How often a second this side does the work of the plan, or takes its lock.
fn rate<R: Threads + Wait + Clock + Sync>(
    rt: &R,
    alloc: Global,
    plan: &Plan,
    side: Side,
) -> io::Result<u128> {
    match side {
        Side::Swarm => Ok(shared::rate(rt, alloc, config()?, plan)?.work),
        Side::Mutex => Ok(locked::rate(rt, alloc, config()?, plan)?.work),
        Side::Lock => locked::rate_of_locks(rt),
    }
}

/// The most of some rounds.
fn most<R: Threads + Wait + Clock + Sync>(
    rt: &R,
    alloc: Global,
    plan: &Plan,
    side: Side,
) -> io::Result<u128> {
    let mut most = 0;
    for _ in 0..ROUNDS {
        most = most.max(rate(rt, alloc, plan, side)?);
    }
    Ok(most)
}

/// Tells how many times one rate is another, to the tenth.
fn ratio(ours: u128, theirs: u128) -> (u128, u128) {
    let tenths = ours.saturating_mul(10) / theirs.max(1);
    (tenths / 10, tenths % 10)
}

/// Writes what one thread's work costs, and how many times as fast it is as under a mutex.
fn show_cost<R: Threads + Wait + Clock + Eprint + Sync>(
    rt: &R,
    alloc: Global,
    what: &str,
    plan: &Plan,
) -> io::Result<()> {
    let ours = most(rt, alloc, plan, Side::Swarm)?;
    let theirs = most(rt, alloc, plan, Side::Mutex)?;
    let (whole, tenth) = ratio(ours, theirs);
    eprintln!(rt;
        "{what}, {} rows: {} ns each, {whole}.{tenth} times as fast as under a mutex",
        plan.most_rows(),
        1_000_000_000 / ours.max(1)
    )
}

/// Writes how much of its work the threads do in a second, and how many times as much as under a mutex.
fn show_rate<R: Threads + Wait + Clock + Eprint + Sync>(
    rt: &R,
    alloc: Global,
    what: &str,
    plan: &Plan,
) -> io::Result<()> {
    let ours = shared::rate(rt, alloc, config()?, plan)?;
    let theirs = locked::rate(rt, alloc, config()?, plan)?;
    let (whole, tenth) = ratio(ours.work, theirs.work);
    eprintln!(rt;
        "{what}, {} threads, {} rows: {} a second beside {} calls, under a mutex {} beside {}: {whole}.{tenth} times",
        plan.threads,
        plan.most_rows(),
        ours.work,
        ours.calls,
        theirs.work,
        theirs.calls
    )
}

/// Writes what a listing costs that is borrowed where nothing changed, against a lock that is taken and left.
fn show_unchanged<R: Threads + Wait + Clock + Eprint + Sync>(
    rt: &R,
    alloc: Global,
) -> io::Result<()> {
    let plan = Plan {
        work: Work::Borrow,
        threads: 1,
        millis: ONE,
        rows: 255,
        beside_calls: false,
    };
    let ours = most(rt, alloc, &plan, Side::Swarm)?;
    let locks = most(rt, alloc, &plan, Side::Lock)?;
    let hundredths = locks.saturating_mul(100) / ours.max(1);
    eprintln!(rt;
        "borrowed listings where nothing changed: {} ns each, {hundredths} hundredths of a lock",
        1_000_000_000 / ours.max(1)
    )
}

/// Writes what one thread's calls and copied listings cost.
fn show_costs<R: Threads + Wait + Clock + Eprint + Sync>(
    rt: &R,
    alloc: Global,
    rows: u8,
) -> io::Result<()> {
    for (what, work) in [
        ("calls", Work::Call),
        ("refused calls", Work::Refused),
        ("copied listings", Work::Copy),
    ] {
        let plan = Plan {
            work,
            threads: 1,
            millis: ONE,
            rows,
            beside_calls: false,
        };
        show_cost(rt, alloc, what, &plan)?;
    }
    Ok(())
}

/// Writes how many calls the threads make, and how many listings they borrow beside a thread that makes calls.
fn show_rates<R: Threads + Wait + Clock + Eprint + Sync>(
    rt: &R,
    alloc: Global,
    threads: usize,
) -> io::Result<()> {
    let threads = threads.min(7);
    for (what, work, rows) in [
        ("calls", Work::Call, 0),
        ("borrowed listings", Work::Borrow, 0),
        ("borrowed listings", Work::Borrow, 255),
    ] {
        let plan = Plan {
            work,
            threads,
            millis: SEVERAL,
            rows,
            beside_calls: matches!(work, Work::Borrow),
        };
        show_rate(rt, alloc, what, &plan)?;
    }
    Ok(())
}

fn main(rt: HostRuntime) -> io::Result<()> {
    let alloc = rt.alloc();
    show_unchanged(&rt, alloc)?;
    for rows in [0, 15, 63, 255] {
        show_costs(&rt, alloc, rows)?;
    }
    for threads in [1, 2, 4] {
        show_rates(&rt, alloc, threads)?;
    }
    Ok(())
}
