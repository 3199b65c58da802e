ghost use Rattle.std.specs.Prelude.{◌≡◌};

mod asserts;
mod both;
mod crowd;
mod gate;
mod held;
mod rows;
mod threads;

use peer_ids::{PeerId, PublicKey};
use plaintext_x::{Exchange, Proven, exchange_keys};
use pool_state::{Agent, Call, Config, Limits, Reply};
use std::alloc::Global;
use std::marker::Brand;
use std::mem;
use std::sync::Wait;
use std::sync::ledger::Ledger;
use std::test::*;
use swarm_calls::{
    BlankHistory, BlankLedgers, Closed, Eight, Gate, Identity, Ledgers, NewRefused, NoGate, Pass,
    Swarm,
};

/// The id of the Ed25519 key of 32 bytes that are all `byte`.
fn peer(byte: u8) -> PeerId {
    PeerId::of_ed25519(&[byte; 32])
}

/// What the holder of this key shows of it.
fn shown(alloc: Global, key: &PublicKey) -> Result<Vec<u8>, Fail> {
    Ok(Exchange::new(alloc, key)?.take_output())
}

/// What an exchange with the holder of that key proves.
fn proven(alloc: Global, byte: u8) -> Result<Proven, Fail> {
    let key = PublicKey::ed25519(alloc, &[byte; 32])?;
    let sent = shown(alloc, &key)?;
    let came = exchange_keys(alloc, &key, &[sent.as_slice()])
        .ok()
        .ok_or("an exchange")?;
    Ok(came.proven.ok_or("a proof")?)
}

/// The widest limits but for connections of one peer, for the node whose id is that of zeros.
fn config(per_peer: usize) -> Result<Config, Fail> {
    let limits = Limits::new(256, per_peer, 64, 64, 256, 256, 64).ok_or("in range")?;
    Ok(Config {
        own: peer(0),
        limits,
        first_conn: 1,
        first_front: 0,
        allow_only: false,
    })
}

/// A call, which names a peer by the byte of its key, and an agent by its text.
#[derive(Clone, Copy)]
enum Asked {
    Dial(Option<u8>),
    Accept,
    Settle(u32, u8),
    Ask(u32, u8),
    Done(u32, u8),
    HangUp(u8),
    Block(u8),
    Unblock(u8),
    Gone(u32),
    Allow(u8),
    Disallow(u8),
    Note(u32, &'static str),
}

fn peer_if(byte: Option<u8>) -> Option<PeerId> {
    match byte {
        Some(byte) => Some(peer(byte)),
        None => None,
    }
}

fn call(asked: Asked) -> Option<Call> {
    let call = match asked {
        Asked::Dial(byte) => Call::Dial(peer_if(byte)),
        Asked::Accept => Call::Accept,
        Asked::Settle(conn, byte) => Call::Settle(conn, peer(byte)),
        Asked::Ask(conn, index) => Call::Ask(conn, index),
        Asked::Done(conn, index) => Call::Done(conn, index),
        Asked::HangUp(byte) => Call::HangUp(peer(byte)),
        Asked::Block(byte) => Call::Block(peer(byte)),
        Asked::Unblock(byte) => Call::Unblock(peer(byte)),
        Asked::Gone(conn) => Call::Gone(conn),
        Asked::Allow(byte) => Call::Allow(peer(byte)),
        Asked::Disallow(byte) => Call::Disallow(peer(byte)),
        Asked::Note(conn, name) => Call::Note(conn, Agent::from_bytes(name.as_bytes())?),
    };
    Some(call)
}

/// Makes the call, but for a Settle, for which it makes an Accept.
fn make<G: Gate, J: Identity, L: Ledgers, R: Wait>(
    rt: &R,
    swarm: &Swarm<G, J, L>,
    pass: &mut Pass<J, L>,
    call: &Call,
) -> Reply {
    match call {
        Call::Dial(peer) => swarm.dial(rt, pass, *peer),
        Call::Ask(conn, index) => swarm.ask(rt, pass, *conn, *index),
        Call::Done(conn, index) => swarm.done(rt, pass, *conn, *index),
        Call::HangUp(peer) => swarm.hang_up(rt, pass, *peer),
        Call::Block(peer) => swarm.block(rt, pass, *peer),
        Call::Unblock(peer) => swarm.unblock(rt, pass, *peer),
        Call::Allow(peer) => swarm.allow(rt, pass, *peer),
        Call::Disallow(peer) => swarm.disallow(rt, pass, *peer),
        Call::Gone(conn) => swarm.gone(rt, pass, *conn),
        Call::Note(conn, agent) => swarm.note(rt, pass, *conn, *agent),
        _ => swarm.accept(rt, pass),
    }
}

/// What a test of one thread does with a swarm. It borrows the swarm and the passes, since a function that owns these
/// is dear to prove: `play_out` alone lets them go.
trait Script {
    /// How many of its rows hold, from the first on.
    fn play<J: Identity, L: Ledgers, R: Wait>(
        &self,
        rt: &R,
        swarm: &Swarm<NoGate, J, L>,
        passes: &mut [Pass<J, L>],
    ) -> usize;

    /// How many rows must hold for the swarm to be closed, and not dropped.
    fn rows(&self) -> usize;

    /// Whether the swarm ends with what it must end with.
    fn is_closed(&self, closed: &Closed) -> bool;
}

/// The swarm, where the passes behind those that are kept back don't end it. All passes are together again then.
fn stays_without<G: Gate, J: Identity, L: Ledgers, R: Wait>(
    rt: &R,
    swarm: Swarm<G, J, L>,
    passes: &mut Vec<Pass<J, L>>,
    kept: usize,
) -> Option<Swarm<G, J, L>> {
    let others = passes.split_off(kept.min(passes.len())).ok()?;
    match swarm.close(rt, others) {
        Ok(_) => None,
        Err((swarm, mut others)) => match passes.append(&mut others) {
            Ok(()) => Some(swarm),
            Err(_) => None,
        },
    }
}

/// All passes end the swarm, in any order, and all but the first don't, nor does none.
fn close<G: Gate, J: Identity, L: Ledgers, R: Wait>(
    rt: &R,
    alloc: Global,
    swarm: Swarm<G, J, L>,
    passes: &mut Vec<Pass<J, L>>,
) -> Option<Closed> {
    let all = passes.len();
    let swarm = stays_without(rt, swarm, passes, all)?;
    let swarm = stays_without(rt, swarm, passes, 1)?;
    passes.reverse();
    let swarm = stays_without(rt, swarm, passes, 1)?;
    swarm.close(rt, mem::replace(passes, Vec::new(alloc))).ok()
}

/// How many rows of the script hold, and one more where the swarm ends as it must then.
fn play_out<J: Identity, L: Ledgers, S: Script, R: Wait>(
    rt: &R,
    alloc: Global,
    script: &S,
    swarm: Swarm<NoGate, J, L>,
    passes: Vec<Pass<J, L>>,
) -> usize {
    let mut passes = passes;
    let held = script.play(rt, &swarm, passes.as_mut_slice());
    let closed = if held < script.rows() {
        None
    } else {
        close(rt, alloc, swarm, &mut passes)
    };
    match closed {
        Some(closed) => held.saturating_add(script.is_closed(&closed) as usize),
        None => held,
    }
}

/// Makes a swarm, and plays the script on it, or says why there is no swarm.
fn run<
    J: Identity,
    L1: Ledger,
    L2: Ledger,
    L3: Ledger,
    L4: Ledger,
    L5: Ledger,
    L6: Ledger,
    L7: Ledger,
    L8: Ledger,
    S: Script,
    R: Wait,
>(
    rt: &R,
    alloc: Global,
    config: Config,
    callers: usize,
    history: BlankHistory,
    ledgers: BlankLedgers,
    script: &S,
) -> Result<usize, NewRefused>
    requires history { history ≡ J.book }
    requires config { config ≡ J.config }
    requires callers { callers ≡ J.callers }
    requires first { (ledgers.first.name ≡ L1.name) × (ledgers.first.parts ≡ L1.parts) }
    requires second { (ledgers.second.name ≡ L2.name) × (ledgers.second.parts ≡ L2.parts) }
    requires third { (ledgers.third.name ≡ L3.name) × (ledgers.third.parts ≡ L3.parts) }
    requires fourth { (ledgers.fourth.name ≡ L4.name) × (ledgers.fourth.parts ≡ L4.parts) }
    requires fifth { (ledgers.fifth.name ≡ L5.name) × (ledgers.fifth.parts ≡ L5.parts) }
    requires sixth { (ledgers.sixth.name ≡ L6.name) × (ledgers.sixth.parts ≡ L6.parts) }
    requires seventh { (ledgers.seventh.name ≡ L7.name) × (ledgers.seventh.parts ≡ L7.parts) }
    requires eighth { (ledgers.eighth.name ≡ L8.name) × (ledgers.eighth.parts ≡ L8.parts) }
{
    let made = Swarm::<NoGate, J, Eight<L1, L2, L3, L4, L5, L6, L7, L8>>::new(
        rt, alloc, config, callers, NoGate, history, ledgers,
    );
    match made {
        Ok((swarm, passes)) => Ok(play_out(rt, alloc, script, swarm, passes)),
        Err(refused) => Err(refused),
    }
}

/// The same, with a new history and new ledgers.
fn play<S: Script, R: Wait>(
    rt: &R,
    alloc: Global,
    config: Config,
    callers: usize,
    script: &S,
) -> Result<usize, NewRefused> {
    run::<Brand, Brand, Brand, Brand, Brand, Brand, Brand, Brand, Brand, S, R>(
        rt,
        alloc,
        config,
        callers,
        BlankHistory::new(),
        BlankLedgers::new(),
        script,
    )
}
