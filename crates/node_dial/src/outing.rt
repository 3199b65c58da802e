//! The run of a node that dials a peer.

use crate::dialing::Dialing;
use driver::{Caller, Fresh, Member, SwarmUse, with_swarm};
use node_outfit::{NodeRuntime, Outfit};
use node_place::Place;
use node_terms::{Errand, Own, PeerEnding, ticks_in};
use pool_state::{Config, Limits, Reply};
use std::alloc::AllocGlobal;
use std::io::Write;
use std::net::Net;
use std::random::RandomSource;
use std::sync::Wait;
use std::time::{Clock, Duration};
use swarm_calls::{Identity, Ledgers, NoGate, Pass, Swarm};

/// How far apart the ticks are, in milliseconds.
const TICK: u64 = 10;

/// A node that is to dial a peer.
#[derive(Drop)]
struct Outing<'a, R, O: Write + Drop> {
    rt: &'a R,
    own: Own<'a>,
    place: Place,
    errand: Errand,
    limit: Duration,
    output: O,
    runtime: NodeRuntime,
}

/// Dials the peer at a place, and prints who it is and what comes of the errand. A step of it that takes longer than
/// the limit ends it.
pub fn dial<'a, R, O>(
    rt: &'a R,
    own: Own<'a>,
    place: Place,
    errand: Errand,
    limit: Duration,
    output: O,
) -> Result<(), PeerEnding>
where
    R: Wait + Clock + Net + RandomSource + AllocGlobal,
    O: Write + Drop,
{
    let config = Config {
        own: own.peer(),
        limits: Limits::new(64, 8, 64, 64, 256, 256, 64).ok_or(PeerEnding::Failed)?,
        first_conn: 1,
        first_front: 0,
        allow_only: false,
    };
    let outing = Outing {
        rt,
        own,
        place,
        errand,
        limit,
        output,
        runtime: NodeRuntime::new(rt)?,
    };
    match with_swarm(rt, config, outing) {
        Ok(outcome) => outcome,
        Err(_) => Err(PeerEnding::Failed),
    }
}

impl<R, O> SwarmUse for Outing<'_, R, O>
where
    R: Wait + Clock + Net + RandomSource + AllocGlobal,
    O: Write + Drop,
{
    type Output = Result<(), PeerEnding>;

    fn go<'s, J: Identity, L: Ledgers>(
        self,
        swarm: &'s Swarm<NoGate, J, L>,
        one: Box<Pass<J, L>>,
        other: Box<Pass<J, L>>,
    ) -> Result<(), PeerEnding> {
        let rt = self.rt;
        let driving = Member::new(rt, swarm, one, &Fresh);
        let calling = Member::new(rt, swarm, other, &Fresh);
        self.go_out(driving, calling)
    }
}

/// The number of the connection that a dial has admitted.
fn admitted<C: Caller>(caller: &mut C, place: &Place) -> Result<u32, PeerEnding> {
    match caller.dial(place.peer) {
        Reply::Conn(number) => Ok(number),
        Reply::Refused(refusal) => Err(PeerEnding::Refused(refusal)),
        Reply::Done | Reply::Count(_) => Err(PeerEnding::Failed),
    }
}

impl<'a, R, O> Outing<'a, R, O>
where
    R: Wait + Clock + Net + RandomSource + AllocGlobal,
    O: Write + Drop,
{
    /// Dials, and tells the number of the connection.
    fn dials<C: Caller>(
        &self,
        driving: C,
        calling: C,
    ) -> Result<(Outfit<'a, R, C>, u32), PeerEnding> {
        let mut caller = calling;
        let conn = admitted(&mut caller, &self.place)?;
        let mut outfit = Outfit::new(
            self.rt,
            &self.own,
            &self.runtime,
            Duration::from_millis(TICK),
            driving,
            caller,
        )?;
        outfit.driver.dial_at(self.place.addr);
        Ok((outfit, conn))
    }

    /// Dials, and does the errand.
    fn go_out<C: Caller>(self, driving: C, calling: C) -> Result<(), PeerEnding> {
        let (outfit, conn) = self.dials(driving, calling)?;
        let Outing {
            rt,
            errand,
            limit,
            output,
            mut runtime,
            ..
        } = self;
        let patience = ticks_in(limit, TICK);
        let dialing = Dialing::new(rt.alloc(), outfit, conn, errand, patience, output);
        runtime.block_on(rt, dialing)?
    }
}
