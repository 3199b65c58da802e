//! Calls from several threads at once. Threads are started only where the ledgers are named, so one function does.

ghost use Rattle.std.specs.Prelude.{◌≡◌};

use super::asserts::holds;
use super::crowd::{History, Told, call_often, call_once};
use super::gate::{ENOUGH, HoldFirst, PATIENT, Watch};
use super::held::{hold_each_call, wait_for_the_first};
use super::{close, config, peer, proven};
use plaintext_x::Proven;
use pool_state::{Call, Config, Refusal, Reply};
use std::alloc::{AllocError, Global};
use std::marker::Brand;
use std::rt::Clock;
use std::sync::Wait;
use std::sync::atomic::Ordering;
use std::sync::ledger::Ledger;
use std::test::*;
use std::thread::{Threads, map_vec};
use swarm_calls::{
    BlankHistory, BlankLedgers, Closed, Eight, Gate, Identity, Ledgers, Pass, Swarm,
};

/// What several threads do with a swarm.
#[derive(Clone, Copy)]
enum Plan {
    /// Two accept at once.
    Accept,
    /// Two dial one peer at once.
    Dial,
    /// One lists while the other's call is held under the lock.
    Hold,
    /// One calls while the other's call is held under the lock.
    Wait,
    /// Each of two makes each call in turn, and the gate counts them.
    Count,
    /// Each of eight makes so many calls, with listings between.
    Crowd(u64),
}

/// A swarm that several threads call. Its gate holds caller 1 until the watch has counted enough. Gives how much of the
/// row's plan holds, and one more where the swarm ends as it must.
fn run<
    J: Identity + Send + Sync,
    L1: Ledger + Send + Sync,
    L2: Ledger + Send + Sync,
    L3: Ledger + Send + Sync,
    L4: Ledger + Send + Sync,
    L5: Ledger + Send + Sync,
    L6: Ledger + Send + Sync,
    L7: Ledger + Send + Sync,
    L8: Ledger + Send + Sync,
    R: Threads + Wait + Clock + Sync,
>(
    rt: &R,
    alloc: Global,
    config: Config,
    callers: usize,
    history: BlankHistory,
    ledgers: BlankLedgers,
    stage: &Stage,
) -> Result<usize, Fail>
    requires history { history ≡ J.book }
    requires config { config ≡ J.config }
    requires callers { callers ≡ J.callers }
    requires first { (ledgers.first.name ≡ L1.name) × (ledgers.first.parts ≡ L1.parts) }
    requires second { (ledgers.second.name ≡ L2.name) × (ledgers.second.parts ≡ L2.parts) }
    requires third { (ledgers.third.name ≡ L3.name) × (ledgers.third.parts ≡ L3.parts) }
    requires fourth { (ledgers.fourth.name ≡ L4.name) × (ledgers.fourth.parts ≡ L4.parts) }
    requires fifth { (ledgers.fifth.name ≡ L5.name) × (ledgers.fifth.parts ≡ L5.parts) }
    requires sixth { (ledgers.sixth.name ≡ L6.name) × (ledgers.sixth.parts ≡ L6.parts) }
    requires seventh { (ledgers.seventh.name ≡ L7.name) × (ledgers.seventh.parts ≡ L7.parts) }
    requires eighth { (ledgers.eighth.name ≡ L8.name) × (ledgers.eighth.parts ≡ L8.parts) }
{
    let gate = HoldFirst {
        clock: rt,
        watch: &stage.watch,
    };
    let made = Swarm::<HoldFirst<'_, '_, R>, J, Eight<L1, L2, L3, L4, L5, L6, L7, L8>>::new(
        rt, alloc, config, callers, gate, history, ledgers,
    );
    let Ok((swarm, passes)) = made else {
        return Err(Fail::from("a swarm"));
    };
    Ok(play_out(rt, alloc, swarm, passes, stage))
}

/// The same, with a new history and new ledgers.
fn play<R: Threads + Wait + Clock + Sync>(
    rt: &R,
    alloc: Global,
    stage: Stage,
) -> Result<usize, Fail> {
    run::<Brand, Brand, Brand, Brand, Brand, Brand, Brand, Brand, Brand, R>(
        rt,
        alloc,
        stage.config,
        stage.row.callers,
        BlankHistory::new(),
        BlankLedgers::new(),
        &stage,
    )
}

/// How much of the plan holds, and one more where all passes end the swarm as they must. It alone owns the swarm and
/// the passes.
fn play_out<
    G: Gate + Sync,
    J: Identity + Send + Sync,
    L1: Ledger + Send + Sync,
    L2: Ledger + Send + Sync,
    L3: Ledger + Send + Sync,
    L4: Ledger + Send + Sync,
    L5: Ledger + Send + Sync,
    L6: Ledger + Send + Sync,
    L7: Ledger + Send + Sync,
    L8: Ledger + Send + Sync,
    R: Threads + Wait + Clock + Sync,
>(
    rt: &R,
    alloc: Global,
    swarm: Swarm<G, J, Eight<L1, L2, L3, L4, L5, L6, L7, L8>>,
    passes: Vec<Pass<J, Eight<L1, L2, L3, L4, L5, L6, L7, L8>>>,
    stage: &Stage,
) -> usize {
    let mut passes = passes;
    let told = act_at_once(rt, alloc, &swarm, passes.as_mut_slice(), stage);
    let held = if stage.is_told(alloc, &told) {
        look_behind(rt, &swarm, passes.as_mut_slice(), stage)
    } else {
        0
    };
    match close(rt, alloc, swarm, &mut passes) {
        Some(closed) => held.saturating_add(stage.row.is_closed(&closed) as usize),
        None => held,
    }
}

/// What each caller saw in its thread. All plans start their threads here, since each place that does is dear to prove.
fn act_at_once<
    G: Gate + Sync,
    J: Identity + Send + Sync,
    L1: Ledger + Send + Sync,
    L2: Ledger + Send + Sync,
    L3: Ledger + Send + Sync,
    L4: Ledger + Send + Sync,
    L5: Ledger + Send + Sync,
    L6: Ledger + Send + Sync,
    L7: Ledger + Send + Sync,
    L8: Ledger + Send + Sync,
    R: Threads + Wait + Clock + Sync,
>(
    rt: &R,
    alloc: Global,
    swarm: &Swarm<G, J, Eight<L1, L2, L3, L4, L5, L6, L7, L8>>,
    passes: &mut [Pass<J, Eight<L1, L2, L3, L4, L5, L6, L7, L8>>],
    stage: &Stage,
) -> Result<Vec<Told>, AllocError> {
    let callers = passes.iter_mut().collect::<Vec<_>>(alloc)?;
    map_vec(rt, callers, &|pass| act(rt, alloc, swarm, stage, pass))
}

/// What a caller does in its thread, and sees.
fn act<G: Gate, J: Identity, L: Ledgers, R: Wait + Clock>(
    rt: &R,
    alloc: Global,
    swarm: &Swarm<G, J, L>,
    stage: &Stage,
    pass: &mut Pass<J, L>,
) -> Told {
    let mut told = Told::new(alloc);
    let watch = &stage.watch;
    let is_first = pass.number() == 1;
    match stage.row.plan {
        Plan::Accept => {
            call_once(rt, swarm, pass, &Call::Accept, &mut told);
            swarm.renew(pass);
        }
        Plan::Dial => dial(rt, swarm, pass, 0x22, &mut told),
        Plan::Hold if !is_first => list_often(swarm, pass, watch, &mut told),
        Plan::Wait if !is_first => {
            wait_for_the_first(rt, watch);
            dial(rt, swarm, pass, 0x22, &mut told);
        }
        Plan::Hold | Plan::Wait => dial(rt, swarm, pass, 0x11, &mut told),
        Plan::Crowd(calls) => call_often(rt, swarm, pass, calls, &mut told),
        Plan::Count => (),
    }
    told
}

fn dial<G: Gate, J: Identity, L: Ledgers, R: Wait>(
    rt: &R,
    swarm: &Swarm<G, J, L>,
    pass: &mut Pass<J, L>,
    byte: u8,
    told: &mut Told,
) {
    call_once(rt, swarm, pass, &Call::Dial(Some(peer(byte))), told);
}

/// Lists often enough for the gate.
fn list_often<G: Gate, J: Identity, L: Ledgers>(
    swarm: &Swarm<G, J, L>,
    pass: &mut Pass<J, L>,
    watch: &Watch,
    told: &mut Told,
) {
    for _ in 0..ENOUGH {
        told.show(&swarm.list(pass));
        watch.listed.fetch_add(1, Ordering::SeqCst);
    }
}

/// How much of the plan holds behind what the callers saw.
fn look_behind<G: Gate, J: Identity, L: Ledgers, R: Wait>(
    rt: &R,
    swarm: &Swarm<G, J, L>,
    passes: &mut [Pass<J, L>],
    stage: &Stage,
) -> usize {
    let [one, two, ..] = passes else {
        return 0;
    };
    match stage.row.plan {
        Plan::Accept | Plan::Dial => have_met(rt, swarm, one, two) as usize,
        Plan::Hold => is_listed(swarm, two) as usize,
        Plan::Count => hold_each_call(rt, swarm, one, two, &stage.proven, &stage.watch),
        Plan::Wait | Plan::Crowd(_) => 1,
    }
}

/// Whether each pass comes to both calls.
fn have_met<G: Gate, J: Identity, L: Ledgers, R: Wait>(
    rt: &R,
    swarm: &Swarm<G, J, L>,
    one: &mut Pass<J, L>,
    two: &mut Pass<J, L>,
) -> bool {
    swarm.meet(rt, one, two);
    one.front() == 2 && two.front() == 2
}

/// Whether a listing behind the held call shows it.
fn is_listed<G: Gate, J: Identity, L: Ledgers>(
    swarm: &Swarm<G, J, L>,
    two: &mut Pass<J, L>,
) -> bool {
    let listing = swarm.list(two);
    listing.front == 1 && listing.conns.len() == 1
}

/// Whether both calls were answered so, in either order.
fn are_answered(told: &[Told], one: Reply, other: Reply) -> bool {
    let [first, second] = told else {
        return false;
    };
    (first.is_answered(one) && second.is_answered(other))
        || (first.is_answered(other) && second.is_answered(one))
}

/// Whether the first call was made first, and the second then.
fn are_in_turn(told: &[Told]) -> bool {
    let [first, second] = told else {
        return false;
    };
    let (one, two) = (Reply::Conn(1), Reply::Conn(2));
    first.is_answered_at(1, one) && second.is_answered_at(2, two)
}

/// Whether all listings beside the held call were of the front before it.
fn are_listed(told: &[Told]) -> bool {
    match told {
        [_, second] => second.has_listed(ENOUGH, 0),
        _ => false,
    }
}

/// Whether what the callers saw is one history of so many calls. Memory for the history may be refused.
fn is_one_history(
    alloc: Global,
    told: &[Told],
    config: Config,
    all: u64,
) -> Result<bool, AllocError> {
    let mut history = History::blank(alloc, all)?;
    let mut is_one = true;
    for told in told {
        is_one = is_one && history.note(told);
    }
    Ok(is_one && history.repeats(config))
}

/// A plan, the first front, how many connections a peer may have, how many callers there are, how often the other
/// caller is taken to have listed, how often the gate looks at most, and how much of the plan holds: of most plans all
/// or nothing. Then how many calls are made, and how many connections stand at the end unless that is left to chance.
#[derive(Clone, Copy)]
struct Row {
    plan: Plan,
    first_front: u64,
    per_peer: usize,
    callers: usize,
    listed: u64,
    patience: u64,
    holds: usize,
    calls: u64,
    conns: Option<usize>,
}

impl Row {
    fn is_closed(&self, closed: &Closed) -> bool {
        let conns = closed.listing.conns.len();
        closed.calls == self.calls && conns == self.conns.unwrap_or(conns)
    }
}

/// A row, and what is made for it.
#[derive(Drop)]
struct Stage {
    row: Row,
    config: Config,
    watch: Watch,
    proven: Proven,
}

impl Stage {
    /// Whether the callers saw in their threads what they must.
    fn is_told(&self, alloc: Global, told: &Result<Vec<Told>, AllocError>) -> bool {
        let Ok(told) = told else {
            return false;
        };
        let (told, one) = (told.as_slice(), Reply::Conn(1));
        let gave_up = self.watch.gave_up.load(Ordering::SeqCst);
        match self.row.plan {
            Plan::Accept => are_answered(told, one, Reply::Conn(2)),
            Plan::Dial => are_answered(told, one, Reply::Refused(Refusal::PeerFull)),
            Plan::Hold => are_listed(told) && gave_up == 0,
            Plan::Wait => are_in_turn(told) && gave_up == 1,
            Plan::Crowd(_) => {
                is_one_history(alloc, told, self.config, self.row.calls) == Ok(true)
            }
            Plan::Count => true,
        }
    }
}

static ROWS: [Row; 6] = [
    Row {
        plan: Plan::Accept,
        first_front: 0,
        per_peer: 1,
        callers: 2,
        listed: ENOUGH,
        patience: PATIENT,
        holds: 1,
        calls: 2,
        conns: Some(2),
    },
    Row {
        plan: Plan::Dial,
        first_front: 0,
        per_peer: 1,
        callers: 2,
        listed: ENOUGH,
        patience: PATIENT,
        holds: 1,
        calls: 2,
        conns: Some(1),
    },
    Row {
        plan: Plan::Hold,
        first_front: 0,
        per_peer: 1,
        callers: 2,
        listed: 0,
        patience: PATIENT,
        holds: 1,
        calls: 1,
        conns: Some(1),
    },
    Row {
        plan: Plan::Wait,
        first_front: 0,
        per_peer: 1,
        callers: 2,
        listed: 0,
        patience: 300,
        holds: 1,
        calls: 2,
        conns: Some(2),
    },
    // Two callers make each call; then the front is at its end.
    Row {
        plan: Plan::Count,
        first_front: u64::MAX - 24,
        per_peer: 1,
        callers: 2,
        listed: ENOUGH,
        patience: PATIENT,
        holds: 12,
        calls: 24,
        conns: Some(3),
    },
    Row {
        plan: Plan::Crowd(2_000),
        first_front: 0,
        per_peer: 4,
        callers: 8,
        listed: ENOUGH,
        patience: PATIENT,
        holds: 1,
        calls: 16_000,
        conns: None,
    },
];

#[test]
fn several_threads_call_a_swarm(rt: HostRuntime) -> Result<(), Fail> {
    for (number, row) in ROWS.iter().enumerate() {
        let config = Config {
            first_front: row.first_front,
            ..config(row.per_peer)?
        };
        let stage = Stage {
            row: *row,
            config,
            watch: Watch::new(row.listed, row.patience),
            proven: proven(rt.alloc(), 0x11)?,
        };
        let held = play(&rt, rt.alloc(), stage)?;
        let all = row.holds.saturating_add(1);
        holds(&rt, (number, held), held == all);
    }
    Ok(())
}
