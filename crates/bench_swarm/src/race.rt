//! How the plan's threads do their work for its time. Both sides do it here, by closures: the proof of a function that
//! is generic in what it calls knows nothing of swarms and locks.

use crate::plan::{Done, Pace, Plan, Rates, is_over};
use std::alloc::AllocError;
use std::io;
use std::rt::Clock;
use std::sync::Wait;
use std::thread::{self, Threads, join};
use std::time::{Duration, Instant};

/// Lets the time of the plan go by, with calls where the plan says so. Answers how many calls.
pub fn pass_time<R: Wait + Clock, C: FnMut() -> u64>(
    rt: &R,
    plan: &Plan,
    pace: &Pace,
    mut call: C,
) -> u64
    requires { C.IsAlwaysCallable call }
{
    let mut calls: u64 = 0;
    pace.begin();
    if let Ok(start) = Instant::now(rt) {
        for _ in rt.forever() {
            if is_over(rt, plan, &start) {
                break;
            }
            if plan.beside_calls {
                calls = calls.saturating_add(call());
            } else {
                thread::sleep(rt, Duration::from_millis(1));
            }
        }
    }
    pace.stop();
    calls
}

/// Waits for the pace, and then does the work. Answers how many nanoseconds that took, too.
fn timed<R: Wait + Clock, W: FnOnce() -> Result<Vec<Done>, AllocError> + Drop>(
    rt: &R,
    pace: &Pace,
    work: W,
) -> io::Result<(Done, u128)>
    requires { W.IsAlwaysCallable work }
{
    pace.wait(rt);
    let start = Instant::now(rt)?;
    let done = work()?;
    let nanos = start.elapsed(rt)?.as_nanos();
    Ok((Done::all(done.as_slice()), nanos))
}

/// How often a second the work is done beside a thread that lets the time go by.
pub fn race<
    R: Threads + Wait + Clock + Sync,
    B: FnOnce() -> u64 + Send,
    W: FnOnce() -> Result<Vec<Done>, AllocError> + Drop,
>(rt: &R, pace: &Pace, beside: B, work: W) -> io::Result<Rates>
    requires beside { B.IsAlwaysCallable beside }
    requires work { W.IsAlwaysCallable work }
{
    let (calls, time) = join(rt, beside, || timed(rt, pace, work));
    let (done, nanos) = time?;
    Rates::of(done, calls, nanos)
}
