//! The run of a node that listens.

use crate::listening::Listening;
use crate::watched::Watched;
use driver::{Caller, Fresh, Member, SwarmUse, with_swarm};
use node_outfit::{NodeRuntime, Outfit};
use node_place::addr_text;
use node_terms::{ListenTerms, Own, PeerEnding, ticks_in};
use peer_ids::PeerId;
use pool_state::Reply;
use std::alloc::{AllocGlobal, Global};
use std::io::Write;
use std::net::{Net, SocketAddr};
use std::random::RandomSource;
use std::sync::Wait;
use std::time::{Clock, Duration};
use swarm_calls::{Identity, Ledgers, NoGate, Pass, Swarm};

/// How far apart the looks at the input are, in milliseconds.
const TICK: u64 = 50;

/// How long connections may take to be shut, in milliseconds.
const SHUTTING: u64 = 2000;

/// A node that is to listen.
#[derive(Drop)]
struct Post<'a, R, I: Watched + Drop, O: Write + Drop> {
    rt: &'a R,
    own: Own<'a>,
    listen: ListenTerms,
    input: I,
    output: O,
    runtime: NodeRuntime,
}

/// Listens and serves until the input ends, and prints where, and what its listings show.
pub fn listen<'a, R, I, O>(
    rt: &'a R,
    own: Own<'a>,
    listen: ListenTerms,
    input: I,
    output: O,
) -> Result<(), PeerEnding>
where
    R: Wait + Clock + Net + RandomSource + AllocGlobal,
    I: Watched + Drop,
    O: Write + Drop,
{
    let config = listen.config(own.peer())?;
    let runtime = NodeRuntime::new(rt)?;
    let post = Post {
        rt,
        own,
        listen,
        input,
        output,
        runtime,
    };
    match with_swarm(rt, config, post) {
        Ok(outcome) => outcome,
        Err(_) => Err(PeerEnding::Failed),
    }
}

impl<R, I, O> SwarmUse for Post<'_, R, I, O>
where
    R: Wait + Clock + Net + RandomSource + AllocGlobal,
    I: Watched + Drop,
    O: Write + Drop,
{
    type Output = Result<(), PeerEnding>;

    fn go<'s, J: Identity, L: Ledgers>(
        self,
        swarm: &'s Swarm<NoGate, J, L>,
        one: Box<Pass<J, L>>,
        other: Box<Pass<J, L>>,
    ) -> Result<(), PeerEnding> {
        let rt = self.rt;
        let driving = Member::new(rt, swarm, one, &Fresh);
        let calling = Member::new(rt, swarm, other, &Fresh);
        self.serve(driving, calling)
    }
}

/// Blocks and allows peers.
fn bar<C: Caller>(caller: &mut C, listen: &ListenTerms) -> Result<(), PeerEnding> {
    for peer in listen.blocked.iter() {
        if let Reply::Refused(refusal) = caller.block(*peer) {
            return Err(PeerEnding::Refused(refusal));
        }
    }
    for peer in listen.allowed.iter() {
        if let Reply::Refused(refusal) = caller.allow(*peer) {
            return Err(PeerEnding::Refused(refusal));
        }
    }
    Ok(())
}

/// Prints where a node listens.
fn print_listening<O: Write>(
    alloc: Global,
    addr: SocketAddr,
    peer: &PeerId,
    output: &mut O,
) -> Result<(), PeerEnding> {
    let Ok(text) = addr_text(alloc, addr) else {
        return Err(PeerEnding::Failed);
    };
    writeln!(output, "listening {text}/p2p/{peer}")?;
    output.flush()?;
    Ok(())
}

impl<'a, R, I, O> Post<'a, R, I, O>
where
    R: Wait + Clock + Net + RandomSource + AllocGlobal,
    I: Watched + Drop,
    O: Write + Drop,
{
    /// Takes connections from now on, and prints where.
    fn open<C: Caller>(&mut self, outfit: &mut Outfit<'a, R, C>) -> Result<(), PeerEnding> {
        let bound = outfit.driver.listen(self.listen.place.addr);
        let addr = bound.map_err(|error| PeerEnding::Unbound(error.kind()))?;
        print_listening(self.rt.alloc(), addr, &self.own.peer(), &mut self.output)
    }

    /// Listens where it is to.
    fn listens<C: Caller>(
        &mut self,
        driving: C,
        calling: C,
    ) -> Result<Outfit<'a, R, C>, PeerEnding> {
        let mut caller = calling;
        bar(&mut caller, &self.listen)?;
        let mut outfit = Outfit::new(
            self.rt,
            &self.own,
            &self.runtime,
            Duration::from_millis(TICK),
            driving,
            caller,
        )?;
        self.open(&mut outfit)?;
        Ok(outfit)
    }

    /// Listens, and serves until the input ends.
    fn serve<C: Caller>(self, driving: C, calling: C) -> Result<(), PeerEnding> {
        let mut post = self;
        let outfit = post.listens(driving, calling)?;
        let Post {
            rt,
            input,
            output,
            mut runtime,
            ..
        } = post;
        let patience = ticks_in(Duration::from_millis(SHUTTING), TICK);
        let listening = Listening::new(rt.alloc(), outfit, patience, input, output);
        runtime.block_on(rt, listening)?
    }
}
