//! The run of a script on two nodes, from the making of their swarms on.

use crate::ending::RunEnding;
use crate::side::Side;
use crate::turns::Run;
use driver::{Caller, Looking, Member, SwarmUse, with_swarm};
use node_lines::Name;
use node_outfit::NodeRuntime;
use node_terms::Own;
use peer_ids::{PeerId, PublicKey};
use pool_state::{Config, Limits};
use std::alloc::{AllocGlobal, Global};
use std::io::Write;
use std::net::Net;
use std::random::RandomSource;
use std::sync::Wait;
use std::time::{Clock, Duration};
use swarm_calls::{Identity, Ledgers, NoGate, Pass, Swarm};
use tokio::time::Interval;

/// How far apart the looks of an await are, in milliseconds.
const TICK: u64 = 10;

/// The name and version that both nodes say.
const AGENT: &str = "node/0.1.0";

/// What a node's Ed25519 key is made of: 32 times this byte.
fn key_byte(name: Name) -> u8 {
    match name {
        Name::A => 0x0a,
        Name::B => 0x0b,
    }
}

fn peer_of(name: Name) -> PeerId {
    PeerId::of_ed25519(&[key_byte(name); 32])
}

/// What a node's pool is made with.
fn config_of(name: Name) -> Result<Config, RunEnding> {
    let limits = Limits::new(64, 8, 64, 64, 256, 256, 64).ok_or(RunEnding::Failed)?;
    Ok(Config {
        own: peer_of(name),
        limits,
        first_conn: 1,
        first_front: 0,
        allow_only: false,
    })
}

/// What a node is.
fn own_of(alloc: Global, name: Name) -> Result<Own<'static>, RunEnding> {
    Ok(Own {
        key: PublicKey::ed25519(alloc, &[key_byte(name); 32])?,
        agent: AGENT,
    })
}

/// What a run has.
#[derive(Drop)]
struct Play<'a, R, K: Looking, O: Write + Drop> {
    rt: &'a R,
    looking: &'a K,
    script: &'a [u8],
    output: O,
    runtime: NodeRuntime,
}

/// Runs a script on two nodes, and prints what comes of it. By `looking` they come to see what is published.
pub fn run<'a, R, K, O>(
    rt: &'a R,
    looking: &'a K,
    script: &'a [u8],
    output: O,
) -> Result<(), RunEnding>
where
    R: Wait + Clock + Net + RandomSource + AllocGlobal,
    K: Looking,
    O: Write + Drop,
{
    let play = Play {
        rt,
        looking,
        script,
        output,
        runtime: NodeRuntime::new(rt)?,
    };
    match with_swarm(rt, config_of(Name::A)?, First { play }) {
        Ok(outcome) => outcome,
        Err(_) => Err(RunEnding::Failed),
    }
}

/// Makes the first node.
#[derive(Drop)]
struct First<'a, R, K: Looking, O: Write + Drop> {
    play: Play<'a, R, K, O>,
}

impl<R, K, O> SwarmUse for First<'_, R, K, O>
where
    R: Wait + Clock + Net + RandomSource + AllocGlobal,
    K: Looking,
    O: Write + Drop,
{
    type Output = Result<(), RunEnding>;

    fn go<'s, J: Identity, L: Ledgers>(
        self,
        swarm: &'s Swarm<NoGate, J, L>,
        one: Box<Pass<J, L>>,
        other: Box<Pass<J, L>>,
    ) -> Result<(), RunEnding> {
        let First { play } = self;
        let (rt, looking) = (play.rt, play.looking);
        let driving = Member::new(rt, swarm, one, looking);
        let calling = Member::new(rt, swarm, other, looking);
        play.beside(driving, calling)
    }
}

/// Makes the second node beside the first.
#[derive(Drop)]
struct Second<'a, R: Net, K: Looking, O: Write + Drop, A: Caller> {
    play: Play<'a, R, K, O>,
    a: Side<'a, R, A>,
}

impl<R, K, O, A> SwarmUse for Second<'_, R, K, O, A>
where
    R: Wait + Clock + Net + RandomSource + AllocGlobal,
    K: Looking,
    O: Write + Drop,
    A: Caller,
{
    type Output = Result<(), RunEnding>;

    fn go<'s, J: Identity, L: Ledgers>(
        self,
        swarm: &'s Swarm<NoGate, J, L>,
        one: Box<Pass<J, L>>,
        other: Box<Pass<J, L>>,
    ) -> Result<(), RunEnding> {
        let Second { play, a } = self;
        let (rt, looking) = (play.rt, play.looking);
        let driving = Member::new(rt, swarm, one, looking);
        let calling = Member::new(rt, swarm, other, looking);
        play.go(a, driving, calling)
    }
}

impl<'a, R, K, O> Play<'a, R, K, O>
where
    R: Wait + Clock + Net + RandomSource + AllocGlobal,
    K: Looking,
    O: Write + Drop,
{
    /// Makes a node of its two callers.
    fn side<C: Caller>(
        &self,
        name: Name,
        driving: C,
        calling: C,
    ) -> Result<Side<'a, R, C>, RunEnding> {
        let own = own_of(self.rt.alloc(), name)?;
        let driver = self.runtime.driver(self.rt, &own, driving)?;
        Ok(Side {
            name,
            peer: peer_of(name),
            driver,
            caller: calling,
        })
    }

    /// Makes the second swarm beside the first node, of which these are the callers.
    fn beside<A: Caller>(self, driving: A, calling: A) -> Result<(), RunEnding> {
        let config = config_of(Name::B)?;
        let a = self.side(Name::A, driving, calling)?;
        let rt = self.rt;
        match with_swarm(rt, config, Second { play: self, a }) {
            Ok(outcome) => outcome,
            Err(_) => Err(RunEnding::Failed),
        }
    }

    /// Makes the second node of its two callers, and the ticks of an await.
    fn second<B: Caller>(
        &self,
        driving: B,
        calling: B,
    ) -> Result<(Side<'a, R, B>, Interval), RunEnding> {
        let ticks = self.runtime.ticks(self.rt, Duration::from_millis(TICK))?;
        Ok((self.side(Name::B, driving, calling)?, ticks))
    }

    /// Runs the script on the first node and on the second, of which these are the callers.
    fn go<A: Caller, B: Caller>(
        self,
        a: Side<'a, R, A>,
        driving: B,
        calling: B,
    ) -> Result<(), RunEnding> {
        let (b, ticks) = self.second(driving, calling)?;
        let Play {
            rt,
            script,
            output,
            mut runtime,
            ..
        } = self;
        runtime.block_on(rt, Run::new(rt, a, b, script, ticks, output))?
    }
}
