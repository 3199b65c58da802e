//! The runtime of a node.

ghost use Rattle.std.specs.Prelude.{◌<◌, IfOk};
ghost use Rattle.std.specs.Duration.{as_nanos};

use driver::{Caller, Driver};
use futures::Future;
use node_terms::{Own, PeerEnding};
use std::alloc::AllocGlobal;
use std::io;
use std::net::Net;
use std::random::RandomSource;
use std::sync::Wait;
use std::time::{Clock, Duration};
use tokio::runtime::LocalRuntime;
use tokio::time::{Interval, MissedTickBehavior};

/// The runtime of a node, on the thread that calls it.
pub struct NodeRuntime {
    local: LocalRuntime,
}

// By hand, so that the proof of who lets go of it is that of a call, and not of all that a runtime is made of.
impl Drop for NodeRuntime {
    fn drop(self) {
        let Self { local: _local } = self;
    }
}

impl NodeRuntime {
    /// A runtime. It fails where a growth or a descriptor is refused.
    pub fn new<R: Clock + Net + RandomSource + AllocGlobal>(rt: &R) -> io::Result<NodeRuntime> {
        Ok(NodeRuntime {
            local: LocalRuntime::new(rt)?,
        })
    }

    /// Ticks that are at least so far apart.
    pub fn ticks<R: Clock>(&self, rt: &R, tick: Duration) -> Result<Interval, PeerEnding>
        requires { 0 < as_nanos tick }
    {
        let mut ticks = self.local.handle().time().interval(rt, tick)?;
        ticks.set_missed_tick_behavior(MissedTickBehavior::Delay);
        Ok(ticks)
    }

    /// The driver of a node, by its caller. Its sockets are this runtime's.
    pub fn driver<'a, R, C>(
        &self,
        rt: &'a R,
        own: &Own<'_>,
        driving: C,
    ) -> Result<Driver<'a, R, C>, PeerEnding>
    where
        R: Net + RandomSource + AllocGlobal,
        C: Caller,
    {
        let reactor = self.local.handle().reactor().clone()?;
        let setup = own.setup(rt)?;
        Ok(Driver::new(rt.alloc(), rt, reactor, driving, setup)?)
    }

    /// Polls the future until it is ready, and waits where it is pending, as [`LocalRuntime::block_on`] does.
    pub fn block_on<R, B>(&mut self, rt: &R, future: B) -> io::Result<B::Output>
    where
        R: Wait + Clock + RandomSource + AllocGlobal,
        B: Future,
        requires { B.can_poll future }
        ensures { IfOk result (B.gives future) }
    {
        self.local.block_on(rt, future)
    }
}
