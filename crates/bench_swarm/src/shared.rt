//! The measured side: a swarm.

ghost use Rattle.std.specs.Prelude.{◌≡◌, ◌+◌};

use crate::plan::{Done, Pace, Plan, Rates, Work};
use crate::race::{pass_time, race};
use crate::{guest, other, peer};
use peer_ids::PeerId;
use pool_state::{Config, Reply};
use std::alloc::Global;
use std::io;
use std::marker::Brand;
use std::rt::Clock;
use std::sync::Wait;
use std::sync::ledger::Ledger;
use std::thread::{Threads, map_vec};
use swarm_calls::{BlankHistory, BlankLedgers, Eight, Identity, Ledgers, NoGate, Pass, Swarm};

/// Admits a connection of the peer, and ends it. Answers how many calls that took.
fn come_and_go<J: Identity, L: Ledgers, R: Wait>(
    rt: &R,
    swarm: &Swarm<NoGate, J, L>,
    pass: &mut Pass<J, L>,
    peer: PeerId,
) -> u64 {
    match swarm.dial(rt, pass, Some(peer)) {
        Reply::Conn(conn) => {
            swarm.gone(rt, pass, conn);
            2
        }
        _ => 1,
    }
}

/// Does the work until it is told to stop. It borrows the pass, since a loop that owns one is dear to prove.
fn work<J: Identity, L: Ledgers, R: Wait>(
    rt: &R,
    swarm: &Swarm<NoGate, J, L>,
    pass: &mut Pass<J, L>,
    (plan, peer, pace): (&Plan, PeerId, &Pace),
) -> Done {
    let mut done = Done::default();
    for _ in rt.forever() {
        if pace.is_stopped() {
            break;
        }
        match plan.work {
            Work::Borrow => {
                swarm.renew(pass);
                done.look(pass.listing());
            }
            Work::Copy => done.look(&swarm.list(pass)),
            Work::Call => done.count(come_and_go(rt, swarm, pass, peer), 0),
            Work::Refused => {
                swarm.ask(rt, pass, 0, 0);
                done.count(1, 0);
            }
        }
    }
    done
}

/// Admits connections, eight of a peer.
fn fill<J: Identity, L: Ledgers, R: Wait>(
    rt: &R,
    swarm: &Swarm<NoGate, J, L>,
    pass: &mut Pass<J, L>,
    rows: u8,
) {
    for row in 0..rows {
        swarm.dial(rt, pass, Some(peer(row / 8 + 1)));
    }
}

/// How often a second the threads of the plan do their work, and calls are made beside them. It borrows the swarm,
/// which `rate_of` alone lets go of.
fn measure<
    J: Identity + Send + Sync,
    L1: Ledger + Send + Sync,
    L2: Ledger + Send + Sync,
    L3: Ledger + Send + Sync,
    L4: Ledger + Send + Sync,
    L5: Ledger + Send + Sync,
    L6: Ledger + Send + Sync,
    L7: Ledger + Send + Sync,
    L8: Ledger + Send + Sync,
    R: Threads + Wait + Clock + Sync,
>(
    rt: &R,
    swarm: &Swarm<NoGate, J, Eight<L1, L2, L3, L4, L5, L6, L7, L8>>,
    mut writer: Pass<J, Eight<L1, L2, L3, L4, L5, L6, L7, L8>>,
    passes: Vec<Pass<J, Eight<L1, L2, L3, L4, L5, L6, L7, L8>>>,
    plan: &Plan,
) -> io::Result<Rates> {
    let (pace, guest, writer) = (&Pace::new(), guest(), &mut writer);
    fill(rt, swarm, writer, plan.rows);
    race(
        rt,
        pace,
        || pass_time(rt, plan, pace, || come_and_go(rt, swarm, writer, guest)),
        || map_vec(
            rt,
            passes,
            &|mut pass| work(rt, swarm, &mut pass, (plan, guest, pace)),
        ),
    )
}

/// The same, where the last pass is that of the thread beside.
fn measure_all<
    J: Identity + Send + Sync,
    L1: Ledger + Send + Sync,
    L2: Ledger + Send + Sync,
    L3: Ledger + Send + Sync,
    L4: Ledger + Send + Sync,
    L5: Ledger + Send + Sync,
    L6: Ledger + Send + Sync,
    L7: Ledger + Send + Sync,
    L8: Ledger + Send + Sync,
    R: Threads + Wait + Clock + Sync,
>(
    rt: &R,
    swarm: Swarm<NoGate, J, Eight<L1, L2, L3, L4, L5, L6, L7, L8>>,
    mut passes: Vec<Pass<J, Eight<L1, L2, L3, L4, L5, L6, L7, L8>>>,
    plan: &Plan,
) -> io::Result<Rates> {
    match passes.pop() {
        Some(writer) => measure(rt, &swarm, writer, passes, plan),
        None => Err(other()),
    }
}

/// The same for a new swarm.
fn rate_of<
    J: Identity + Send + Sync,
    L1: Ledger + Send + Sync,
    L2: Ledger + Send + Sync,
    L3: Ledger + Send + Sync,
    L4: Ledger + Send + Sync,
    L5: Ledger + Send + Sync,
    L6: Ledger + Send + Sync,
    L7: Ledger + Send + Sync,
    L8: Ledger + Send + Sync,
    R: Threads + Wait + Clock + Sync,
>(
    rt: &R,
    alloc: Global,
    config: Config,
    plan: &Plan,
    history: BlankHistory,
    ledgers: BlankLedgers,
) -> io::Result<Rates>
    requires history { history ≡ J.book }
    requires config { config ≡ J.config }
    requires callers { plan.now.threads + 1 ≡ J.callers }
    requires first { (ledgers.first.name ≡ L1.name) × (ledgers.first.parts ≡ L1.parts) }
    requires second { (ledgers.second.name ≡ L2.name) × (ledgers.second.parts ≡ L2.parts) }
    requires third { (ledgers.third.name ≡ L3.name) × (ledgers.third.parts ≡ L3.parts) }
    requires fourth { (ledgers.fourth.name ≡ L4.name) × (ledgers.fourth.parts ≡ L4.parts) }
    requires fifth { (ledgers.fifth.name ≡ L5.name) × (ledgers.fifth.parts ≡ L5.parts) }
    requires sixth { (ledgers.sixth.name ≡ L6.name) × (ledgers.sixth.parts ≡ L6.parts) }
    requires seventh { (ledgers.seventh.name ≡ L7.name) × (ledgers.seventh.parts ≡ L7.parts) }
    requires eighth { (ledgers.eighth.name ≡ L8.name) × (ledgers.eighth.parts ≡ L8.parts) }
{
    let callers = plan.threads + 1;
    let made = Swarm::<NoGate, J, Eight<L1, L2, L3, L4, L5, L6, L7, L8>>::new(
        rt, alloc, config, callers, NoGate, history, ledgers,
    );
    match made {
        Ok((swarm, passes)) => measure_all(rt, swarm, passes, plan),
        Err(_) => Err(other()),
    }
}

/// The same with a new history and new ledgers.
pub fn rate<R: Threads + Wait + Clock + Sync>(
    rt: &R,
    alloc: Global,
    config: Config,
    plan: &Plan,
) -> io::Result<Rates> {
    rate_of::<Brand, Brand, Brand, Brand, Brand, Brand, Brand, Brand, Brand, R>(
        rt,
        alloc,
        config,
        plan,
        BlankHistory::new(),
        BlankLedgers::new(),
    )
}
