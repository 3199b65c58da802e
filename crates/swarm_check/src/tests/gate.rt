//! A gate that counts, and holds caller 1 while another is at work.

use std::rt::Clock;
use std::sync::Wait;
use std::sync::atomic::{AtomicU64, Ordering};
use std::thread;
use std::time::Duration;
use swarm_calls::Gate;

/// How often the other caller is listed when the gate opens.
pub const ENOUGH: u64 = 1_000;

/// How often the gate looks at most before it gives up: 1 ms apart, so 10 seconds.
pub const PATIENT: u64 = 10_000;

/// What the gate and the other caller tell each other.
#[derive(Drop)]
pub struct Watch {
    /// How often the other caller has listed.
    pub listed: AtomicU64,
    /// Whether the gate gave up.
    pub gave_up: AtomicU64,
    /// How often the gate looks at most.
    pub patience: u64,
    /// How many calls of caller 1, of caller 2 and of others were held.
    pub first: AtomicU64,
    pub second: AtomicU64,
    pub others: AtomicU64,
}

impl Watch {
    /// Nothing was held yet.
    pub fn new(listed: u64, patience: u64) -> Watch {
        Watch {
            listed: AtomicU64::new(listed),
            gave_up: AtomicU64::new(0),
            patience,
            first: AtomicU64::new(0),
            second: AtomicU64::new(0),
            others: AtomicU64::new(0),
        }
    }

    /// How many calls were held: of caller 1, of caller 2, of others.
    pub fn held(&self) -> (u64, u64, u64) {
        (
            self.first.load(Ordering::SeqCst),
            self.second.load(Ordering::SeqCst),
            self.others.load(Ordering::SeqCst),
        )
    }

    fn count(&self, caller: usize) {
        let held = match caller {
            1 => &self.first,
            2 => &self.second,
            _ => &self.others,
        };
        held.fetch_add(1, Ordering::SeqCst);
    }
}

/// Counts each call, and holds those of caller 1 until the other has listed often enough.
#[derive(Drop)]
pub struct HoldFirst<'c, 'w, C: Clock> {
    pub clock: &'c C,
    pub watch: &'w Watch,
}

impl<C: Clock> Gate for HoldFirst<'_, '_, C> {
    fn hold<R: Wait>(&self, _rt: &R, caller: usize) {
        self.watch.count(caller);
        if caller != 1 {
            return;
        }
        for _ in 0..self.watch.patience {
            if self.watch.listed.load(Ordering::SeqCst) >= ENOUGH {
                return;
            }
            thread::sleep(self.clock, Duration::from_millis(1));
        }
        self.watch.gave_up.store(1, Ordering::SeqCst);
    }
}
