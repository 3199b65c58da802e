//! The dials of two callers of one swarm, made in turn by one thread. Played with a growth refused: a dial that is
//! refused for memory leaves rows and front as they were, and made again it answers what the first would have.
#![tactic(auto)]

ghost use Rattle.std.specs.Prelude.{◌≡◌};

use peer_ids::PeerId;
use pool_state::{Config, Limits, Refusal, Reply};
use std::alloc::Global;
use std::io;
use std::marker::Brand;
use std::process::ExitCode;
use std::sync::Wait;
use std::sync::ledger::Ledger;
use swarm_calls::{
    BlankHistory, BlankLedgers, Eight, Identity, Ledgers, NewRefused, NoGate, Pass, Swarm,
};

/// How many calls answered want of memory, and how often something wasn't as it is said.
#[derive(Clone, Copy)]
struct Tally {
    refused: u32,
    wrong: u32,
}

impl Tally {
    fn expect(&mut self, holds: bool) {
        if !holds {
            self.wrong = self.wrong.saturating_add(1);
        }
    }

    fn refuse(&mut self) {
        self.refused = self.refused.saturating_add(1);
    }
}

/// The id of the Ed25519 key of 32 bytes that are all `byte`.
fn peer(byte: u8) -> PeerId {
    PeerId::of_ed25519(&[byte; 32])
}

/// Of each peer one connection may stand.
fn config() -> io::Result<Config> {
    let limits = Limits::new(64, 1, 64, 64, 256, 256, 64).ok_or(io::Error::from(
        io::ErrorKind::Other,
    ))?;
    Ok(Config {
        own: peer(0),
        limits,
        first_conn: 1,
        first_front: 0,
        allow_only: false,
    })
}

/// Dials, and again where memory was refused. As many rows stand then.
fn dial<J: Identity, L: Ledgers, R: Wait>(
    rt: &R,
    swarm: &Swarm<NoGate, J, L>,
    pass: &mut Pass<J, L>,
    tally: &mut Tally,
    peer: PeerId,
    reply: Reply,
    rows: usize,
) {
    let before = swarm.list(pass);
    let mut answer = swarm.dial(rt, pass, Some(peer));
    if answer == Reply::Refused(Refusal::OutOfMemory) {
        tally.refuse();
        let behind = swarm.list(pass);
        tally.expect(behind.conns.len() == before.conns.len() && behind.front == before.front);
        answer = swarm.dial(rt, pass, Some(peer));
    }
    tally.expect(answer == reply);
    tally.expect(swarm.list(pass).conns.len() == rows);
}

/// Three dials, of which the third finds the peer's only place taken; then both callers have seen the same.
fn play<J: Identity, L: Ledgers, R: Wait>(
    rt: &R,
    swarm: Swarm<NoGate, J, L>,
    mut passes: Vec<Pass<J, L>>,
    tally: &mut Tally,
) -> io::Result<()> {
    let (first, second) = (peer(0x11), peer(0x22));
    let (Some(mut two), Some(mut one)) = (passes.pop(), passes.pop()) else {
        return Err(io::Error::from(io::ErrorKind::Other));
    };
    dial(rt, &swarm, &mut one, tally, first, Reply::Conn(1), 1);
    tally.expect(one.front() == 1 && two.front() == 0);
    dial(rt, &swarm, &mut one, tally, second, Reply::Conn(2), 2);
    let full = Reply::Refused(Refusal::PeerFull);
    dial(rt, &swarm, &mut two, tally, second, full, 2);
    swarm.meet(rt, &mut one, &mut two);
    tally.expect(one.front() == 3 && two.front() == 3);
    passes.push(one)?;
    passes.push(two)?;
    let Ok(closed) = swarm.close(rt, passes) else {
        tally.expect(false);
        return Ok(());
    };
    tally.expect(closed.calls == 3 && closed.listing.conns.len() == 2);
    Ok(())
}

/// Makes a swarm of two callers, and plays the dials.
fn play_in<
    J: Identity,
    L1: Ledger,
    L2: Ledger,
    L3: Ledger,
    L4: Ledger,
    L5: Ledger,
    L6: Ledger,
    L7: Ledger,
    L8: Ledger,
    R: Wait,
>(
    rt: &R,
    alloc: Global,
    config: Config,
    history: BlankHistory,
    ledgers: BlankLedgers,
    tally: &mut Tally,
) -> io::Result<()>
    requires history { history ≡ J.book }
    requires config { config ≡ J.config }
    requires callers { 2 ≡ J.callers }
    requires first { (ledgers.first.name ≡ L1.name) × (ledgers.first.parts ≡ L1.parts) }
    requires second { (ledgers.second.name ≡ L2.name) × (ledgers.second.parts ≡ L2.parts) }
    requires third { (ledgers.third.name ≡ L3.name) × (ledgers.third.parts ≡ L3.parts) }
    requires fourth { (ledgers.fourth.name ≡ L4.name) × (ledgers.fourth.parts ≡ L4.parts) }
    requires fifth { (ledgers.fifth.name ≡ L5.name) × (ledgers.fifth.parts ≡ L5.parts) }
    requires sixth { (ledgers.sixth.name ≡ L6.name) × (ledgers.sixth.parts ≡ L6.parts) }
    requires seventh { (ledgers.seventh.name ≡ L7.name) × (ledgers.seventh.parts ≡ L7.parts) }
    requires eighth { (ledgers.eighth.name ≡ L8.name) × (ledgers.eighth.parts ≡ L8.parts) }
{
    match Swarm::<NoGate, J, Eight<L1, L2, L3, L4, L5, L6, L7, L8>>::new(
        rt, alloc, config, 2, NoGate, history, ledgers,
    ) {
        Ok((swarm, passes)) => play(rt, swarm, passes, tally),
        Err(NewRefused::BadCallers) => {
            tally.expect(false);
            Ok(())
        }
        Err(_) => {
            tally.refuse();
            Ok(())
        }
    }
}

/// The same with a new history and new ledgers.
fn play_new<R: Wait>(rt: &R, alloc: Global, config: Config, tally: &mut Tally) -> io::Result<()> {
    play_in::<Brand, Brand, Brand, Brand, Brand, Brand, Brand, Brand, Brand, R>(
        rt,
        alloc,
        config,
        BlankHistory::new(),
        BlankLedgers::new(),
        tally,
    )
}

fn main(rt: HostRuntime) -> io::Result<ExitCode> {
    let alloc = rt.alloc();
    let mut tally = Tally {
        refused: 0,
        wrong: 0,
    };
    play_new(&rt, alloc, config()?, &mut tally)?;
    let at_most_one = tally.refused <= 1;
    tally.expect(at_most_one);
    println!(rt;
        "{} calls refused, {} not as said",
        tally.refused, tally.wrong
    )?;
    Ok(ExitCode::from(if tally.wrong == 0 { 0 } else { 1 }))
}
