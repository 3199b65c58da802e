//! The other side: a pool and an `Arc` of its listing under a plain mutex.

use crate::plan::{Done, Pace, Plan, Rates, Work};
use crate::race::{pass_time, race};
use crate::{guest, other, peer};
use peer_ids::PeerId;
use pool_state::{Call, Config, Listing, Pool, Reply};
use std::alloc::Global;
use std::io;
use std::rt::Clock;
use std::sync::{Arc, Mutex, Wait};
use std::thread::{Threads, map_indices};
use std::time::Instant;

/// How many locks are taken and left.
const LOCKS: u32 = 100_000;

/// A pool with its listing, for a lock.
#[derive(Drop)]
struct Shown {
    alloc: Global,
    pool: Pool,
    listing: Arc<Listing, Global>,
}

impl Shown {
    /// Makes a call. The listing is changed where it lies while nobody looks at it, and else a new one is made.
    fn call(&mut self, call: &Call) -> Reply {
        let reply = self.pool.apply(*call);
        match Arc::get_mut(&mut self.listing) {
            Some(listing) => listing.add(*call, reply),
            None => self.show(),
        }
        reply
    }

    /// Makes a new listing. It stands apart, since a function pays for the size of its locals whenever it is called.
    #[inline(never)]
    fn show(&mut self) {
        if let Ok(listing) = Arc::new(self.alloc, self.pool.listing()) {
            self.listing = listing;
        }
    }
}

/// Admits a connection of the peer, and ends it. Answers how many calls that took.
fn come_and_go<R: Wait>(rt: &R, shown: &Mutex<Shown>, peer: PeerId) -> u64 {
    let reply = shown.lock(rt).call(&Call::Dial(Some(peer)));
    match reply {
        Reply::Conn(conn) => {
            shown.lock(rt).call(&Call::Gone(conn));
            2
        }
        _ => 1,
    }
}

/// Another owner of the listing, which is looked at without the lock.
fn share<R: Wait>(rt: &R, shown: &Mutex<Shown>) -> Option<Arc<Listing, Global>> {
    Arc::try_clone(&shown.lock(rt).listing).ok()
}

/// Does the work until it is told to stop.
fn work<R: Wait>(rt: &R, shown: &Mutex<Shown>, (plan, peer, pace): (&Plan, PeerId, &Pace)) -> Done {
    let mut done = Done::default();
    for _ in rt.forever() {
        if pace.is_stopped() {
            break;
        }
        match plan.work {
            Work::Borrow => {
                if let Some(listing) = share(rt, shown) {
                    done.look(&listing);
                }
            }
            Work::Copy => {
                let listing = shown.lock(rt).listing.copied();
                done.look(&listing);
            }
            Work::Call => done.count(come_and_go(rt, shown, peer), 0),
            Work::Refused => {
                shown.lock(rt).call(&Call::Ask(0, 0));
                done.count(1, 0);
            }
        }
    }
    done
}

/// A pool with connections, eight of a peer, under a mutex.
fn filled(alloc: Global, config: Config, rows: u8) -> io::Result<Mutex<Shown>> {
    let mut pool = Pool::new(config);
    for row in 0..rows {
        pool.apply(Call::Dial(Some(peer(row / 8 + 1))));
    }
    let Ok(listing) = Arc::new(alloc, pool.listing()) else {
        return Err(other());
    };
    Ok(Mutex::new(Shown {
        alloc,
        pool,
        listing,
    }))
}

/// How often a second the threads of the plan do their work, and calls are made beside them.
pub fn rate<R: Threads + Wait + Clock + Sync>(
    rt: &R,
    alloc: Global,
    config: Config,
    plan: &Plan,
) -> io::Result<Rates> {
    let (shown, pace, guest) = (filled(alloc, config, plan.rows)?, &Pace::new(), guest());
    let shown = &shown;
    race(
        rt,
        pace,
        || pass_time(rt, plan, pace, || come_and_go(rt, shown, guest)),
        || map_indices(
            rt,
            alloc,
            plan.threads,
            &|_| { work(rt, shown, (plan, guest, pace)) },
        ),
    )
}

/// How often a second a lock is taken and left.
pub fn rate_of_locks<R: Wait + Clock>(rt: &R) -> io::Result<u128> {
    let lock = Mutex::new(0_u64);
    let start = Instant::now(rt)?;
    for _ in 0..LOCKS {
        let mut count = lock.lock(rt);
        *count = count.wrapping_add(1);
    }
    let nanos = start.elapsed(rt)?.as_nanos();
    Ok(u128::from(LOCKS) * 1_000_000_000 / nanos.max(1))
}
