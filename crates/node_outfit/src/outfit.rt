//! What a node is driven by.

ghost use Rattle.std.specs.Prelude.{◌<◌};
ghost use Rattle.std.specs.Duration.{as_nanos};

use crate::runtime::NodeRuntime;
use driver::{Caller, Driver};
use node_terms::{Own, PeerEnding};
use std::alloc::AllocGlobal;
use std::net::Net;
use std::random::RandomSource;
use std::time::{Clock, Duration};
use tokio::time::Interval;

/// What a node is driven by: the driver of its connections, its caller of its swarm, and ticks.
pub struct Outfit<'a, N: Net, C: Caller> {
    /// What drives its connections.
    pub driver: Driver<'a, N, C>,
    /// By what it calls its swarm.
    pub caller: C,
    /// The ticks at which it looks around.
    pub ticks: Interval,
}

// By hand, so that the proof of who lets go of it is that of a call.
impl<N: Net, C: Caller> Drop for Outfit<'_, N, C> {
    fn drop(self) {
        let Self {
            driver: _driver,
            caller: _caller,
            ticks: _ticks,
        } = self;
    }
}

impl<'a, R: Net + Clock + RandomSource + AllocGlobal, C: Caller> Outfit<'a, R, C> {
    /// The outfit of a node in this runtime, of its two callers. Its ticks are so far apart. Its refusals are Failed: a
    /// growth or a socket was refused.
    pub fn new(
        rt: &'a R,
        own: &Own<'_>,
        runtime: &NodeRuntime,
        tick: Duration,
        driving: C,
        calling: C,
    ) -> Result<Outfit<'a, R, C>, PeerEnding>
        requires { 0 < as_nanos tick }
    {
        let ticks = runtime.ticks(rt, tick)?;
        let driver = runtime.driver(rt, own, driving)?;
        Ok(Outfit {
            driver,
            caller: calling,
            ticks,
        })
    }
}
