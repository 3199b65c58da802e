//! Two threads share a swarm.

ghost use Rattle.std.specs.Prelude.{◌≡◌, ◌≢◌, ℕ, [], IfErr, IfOk};
ghost use Rattle.pool_state.specs.declared.call.Call.TheVariants.{Dial};
ghost use Rattle.pool_state.specs.declared.call.Reply.TheVariants.{Conn};
ghost use Rattle.swarm_calls.specs.declared.swarm.NewRefused.TheVariants.{BadCallers};
ghost use Rattle.swarm_calls.specs.Calls.{IsTurnedAway, newcomers, past};
ghost use Rattle.clients.specs.Swarm.{HasDialed, ShowsBoth, ShowsCall};

use peer_ids::PeerId;
use pool_state::laws::{added_is_shown, beginning_is_legal, last_reply, next_number_is_given};
use pool_state::{Config, Listing, Reply};
use std::alloc::Global;
use std::sync::Wait;
use std::sync::ledger::Ledger;
use swarm_calls::laws::calls_add_up;
use swarm_calls::{
    BlankHistory, BlankLedgers, Closed, Eight, Gate, Identity, Ledgers, NewRefused, NoGate, Pass,
    Swarm,
};

/// What two dials were answered, and what was listed behind them.
#[derive(Drop)]
pub struct Dials {
    pub one: Reply,
    pub other: Reply,
    pub listing: Listing,
}

/// Two callers dial and meet, and the first lists. They meet once more, which shows that nobody called between.
pub fn dial_and_list<G: Gate, J: Identity, L: Ledgers, R: Wait>(
    rt: &R,
    swarm: &Swarm<G, J, L>,
    first: &mut Pass<J, L>,
    second: &mut Pass<J, L>,
    a: PeerId,
    b: PeerId,
) -> Dials
    requires callers { J.callers ≡ 2 }
    requires passes { (first.old ≡ past 1 []) × (second.old ≡ past 2 []) }
    ensures listed { (n m : ℕ) → result.one ≡ Conn n → result.other ≡ Conn m
        → ShowsBoth J.config result.listing n a m b }
    ensures numbers { (first.new.number ≡ 1) × (second.new.number ≡ 2) }
    ensures first { (n : ℕ) → result.one ≡ Conn n → HasDialed 1 first.new n a }
    ensures second { (m : ℕ) → result.other ≡ Conn m → HasDialed 2 second.new m b }
{
    let one = swarm.dial(rt, first, Some(a));
    let other = swarm.dial(rt, second, Some(b));
    swarm.meet(rt, first, second);
    let listing = swarm.list(first);
    swarm.meet(rt, first, second);
    calls_add_up();
    beginning_is_legal();
    last_reply();
    next_number_is_given();
    added_is_shown();
    Dials {
        one,
        other,
        listing,
    }
}

/// Dials, and then lists. The listing shows a history with the dial in it, after all that its caller had seen.
pub fn dial_then_list<G: Gate, J: Identity, L: Ledgers, R: Wait>(
    rt: &R,
    swarm: &Swarm<G, J, L>,
    pass: &mut Pass<J, L>,
    peer: PeerId,
) -> (Reply, Listing)
    ensures { ¬ IsTurnedAway result.0
        → ShowsCall J.config (Dial (Some peer)) result.0 pass.old pass.new result.1 }
{
    let reply = swarm.dial(rt, pass, Some(peer));
    let listing = swarm.list(pass);
    (reply, listing)
}

/// Two dials as by `dial_and_list`, from new passes to the end of the swarm.
pub fn dial_list_close<G: Gate, J: Identity, L: Ledgers, R: Wait>(
    rt: &R,
    swarm: Swarm<G, J, L>,
    passes: Vec<Pass<J, L>>,
    a: PeerId,
    b: PeerId,
) -> (Dials, Closed)
    requires callers { swarm ≡ 2 }
    requires passes { passes.items ≡ newcomers 2 }
    ensures listed { (n m : ℕ) → result.0.one ≡ Conn n → result.0.other ≡ Conn m
        → ShowsBoth J.config result.0.listing n a m b }
    ensures closed { (n m : ℕ) → result.0.one ≡ Conn n → result.0.other ≡ Conn m
        → ShowsBoth J.config result.1.listing n a m b × (result.1.calls ≡ 2) }
{
    let mut passes = passes;
    let Some(mut second) = passes.pop() else {
        unreachable!()
    };
    let Some(mut first) = passes.pop() else {
        unreachable!()
    };
    let dials = dial_and_list(rt, &swarm, &mut first, &mut second, a, b);
    let Ok(()) = passes.push(first) else {
        unreachable!()
    };
    let Ok(()) = passes.push(second) else {
        unreachable!()
    };
    let Ok(closed) = swarm.close(rt, passes) else {
        unreachable!()
    };
    calls_add_up();
    beginning_is_legal();
    last_reply();
    next_number_is_given();
    added_is_shown();
    (dials, closed)
}

/// The same for a new swarm of two callers.
pub fn two_callers<
    J: Identity,
    L1: Ledger,
    L2: Ledger,
    L3: Ledger,
    L4: Ledger,
    L5: Ledger,
    L6: Ledger,
    L7: Ledger,
    L8: Ledger,
    R: Wait,
>(
    rt: &R,
    alloc: Global,
    config: Config,
    history: BlankHistory,
    ledgers: BlankLedgers,
    a: PeerId,
    b: PeerId,
) -> Result<(Dials, Closed), NewRefused>
    requires history { history ≡ J.book }
    requires config { config ≡ J.config }
    requires callers { J.callers ≡ 2 }
    requires first { (ledgers.first.name ≡ L1.name) × (ledgers.first.parts ≡ L1.parts) }
    requires second { (ledgers.second.name ≡ L2.name) × (ledgers.second.parts ≡ L2.parts) }
    requires third { (ledgers.third.name ≡ L3.name) × (ledgers.third.parts ≡ L3.parts) }
    requires fourth { (ledgers.fourth.name ≡ L4.name) × (ledgers.fourth.parts ≡ L4.parts) }
    requires fifth { (ledgers.fifth.name ≡ L5.name) × (ledgers.fifth.parts ≡ L5.parts) }
    requires sixth { (ledgers.sixth.name ≡ L6.name) × (ledgers.sixth.parts ≡ L6.parts) }
    requires seventh { (ledgers.seventh.name ≡ L7.name) × (ledgers.seventh.parts ≡ L7.parts) }
    requires eighth { (ledgers.eighth.name ≡ L8.name) × (ledgers.eighth.parts ≡ L8.parts) }
    ensures made { IfErr result (λ refused. refused ≢ BadCallers) }
    ensures listed { IfOk result (λ r. (n m : ℕ) → r.0.one ≡ Conn n → r.0.other ≡ Conn m
        → ShowsBoth config r.0.listing n a m b) }
    ensures closed { IfOk result (λ r. (n m : ℕ) → r.0.one ≡ Conn n → r.0.other ≡ Conn m
        → ShowsBoth config r.1.listing n a m b × (r.1.calls ≡ 2)) }
{
    let (swarm, passes) = Swarm::<NoGate, J, Eight<L1, L2, L3, L4, L5, L6, L7, L8>>::new(
        rt, alloc, config, 2, NoGate, history, ledgers,
    )?;
    Ok(dial_list_close(rt, swarm, passes, a, b))
}
