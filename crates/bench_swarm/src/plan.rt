//! What is measured, how long, and how it is counted.

ghost use Rattle.std.specs.Prelude.{◌<◌};

use crate::other;
use pool_state::Listing;
use std::io;
use std::rt::Clock;
use std::sync::Wait;
use std::sync::atomic::{AtomicBool, Ordering};
use std::time::Instant;

/// What each thread does, again and again.
#[derive(Clone, Copy)]
pub enum Work {
    /// Looks at a listing that it borrows.
    Borrow,
    /// Copies a listing.
    Copy,
    /// Admits a connection, and ends it.
    Call,
    /// Asks for a stream of a connection that doesn't stand.
    Refused,
}

/// What is measured: so many threads do this for so many milliseconds, where so many connections stand, and where it is
/// said beside a thread that makes calls all the time.
#[derive(Clone, Copy)]
pub struct Plan {
    pub work: Work,
    pub threads: usize,
    pub millis: u128,
    pub rows: u8,
    pub beside_calls: bool,
    pub ghost few: { threads < 8 },
}

impl Plan {
    /// How many connections stand at most, with one that comes and goes.
    pub fn most_rows(&self) -> u16 {
        u16::from(self.rows).saturating_add(1)
    }
}

/// How often a thread has done its work, and what it has seen, added up, so that nothing goes unseen.
#[derive(Clone, Copy, Default)]
pub struct Done {
    times: u64,
    seen: u64,
}

impl Done {
    /// Looks at the front and the last row of a listing.
    pub fn look(&mut self, listing: &Listing) {
        let last = match listing.conns.as_slice() {
            [.., row] => u64::from(row.conn),
            [] => 0,
        };
        let seen = self.seen.wrapping_add(listing.front);
        self.count(1, seen.wrapping_add(last));
    }

    /// Counts so much more, with all that is seen now.
    pub fn count(&mut self, times: u64, seen: u64) {
        self.times = self.times.saturating_add(times);
        self.seen = seen;
    }

    /// All of it together.
    pub fn all(parts: &[Done]) -> Done {
        let mut all = Done::default();
        for part in parts {
            let seen = all.seen.wrapping_add(part.seen);
            let times = part.times;
            all.count(times, seen);
        }
        all
    }
}

/// How often a second the threads of the plan have done their work, and how many calls a second were made beside them.
#[derive(Clone, Copy)]
pub struct Rates {
    pub work: u128,
    pub calls: u128,
}

impl Rates {
    /// The rates of so much, done in so many nanoseconds.
    pub fn of(done: Done, calls: u64, nanos: u128) -> io::Result<Rates> {
        if done.seen == u64::MAX || nanos == 0 {
            return Err(other());
        }
        Ok(Rates {
            work: u128::from(done.times).saturating_mul(1_000_000_000) / nanos,
            calls: u128::from(calls).saturating_mul(1_000_000_000) / nanos,
        })
    }
}

/// By which one thread tells the others when to begin and when to stop.
#[derive(Drop)]
pub struct Pace {
    begun: AtomicBool,
    stopped: AtomicBool,
}

impl Pace {
    /// One that has not begun.
    pub fn new() -> Pace {
        Pace {
            begun: AtomicBool::new(false),
            stopped: AtomicBool::new(false),
        }
    }

    /// Whether the others are to stop.
    pub fn is_stopped(&self) -> bool {
        self.stopped.load(Ordering::SeqCst)
    }

    /// Tells the others to stop.
    pub fn stop(&self) {
        self.stopped.store(true, Ordering::SeqCst);
    }

    /// Tells the others to begin.
    pub fn begin(&self) {
        self.begun.store(true, Ordering::SeqCst);
    }

    /// Waits until the others may begin.
    pub fn wait<R: Wait>(&self, rt: &R) {
        for _ in rt.forever() {
            if self.begun.load(Ordering::SeqCst) {
                return;
            }
        }
    }
}

/// The time of the plan is over.
pub fn is_over<C: Clock>(clock: &C, plan: &Plan, start: &Instant) -> bool {
    match start.elapsed(clock) {
        Ok(time) => time.as_millis() >= plan.millis,
        Err(_) => true,
    }
}
