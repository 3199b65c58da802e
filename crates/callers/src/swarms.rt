//! A swarm that is made for a purpose.

ghost use Rattle.std.specs.Prelude.{◌≡◌};

use pool_state::Config;
use std::alloc::AllocGlobal;
use std::marker::Brand;
use std::sync::Wait;
use std::sync::ledger::Ledger;
use swarm_calls::{
    BlankHistory, BlankLedgers, Eight, Identity, Ledgers, NewRefused, NoGate, Pass, Swarm,
};

/// What a swarm is made for.
pub trait SwarmUse: Drop {
    /// What comes of it.
    type Output: Drop;

    /// Uses the swarm by the passes of its two callers.
    fn go<'s, J: Identity, L: Ledgers>(
        self,
        swarm: &'s Swarm<NoGate, J, L>,
        one: Box<Pass<J, L>>,
        other: Box<Pass<J, L>>,
    ) -> Self::Output;
}

/// Makes a swarm of two callers and uses it. Its passes are the purpose's, so it isn't closed: what it has published
/// when it is dropped is lost until the program ends.
pub fn with_swarm<R, U>(rt: &R, config: Config, purpose: U) -> Result<U::Output, NewRefused>
where
    R: Wait + AllocGlobal,
    U: SwarmUse,
{
    let (history, ledgers) = (BlankHistory::new(), BlankLedgers::new());
    in_swarm::<Brand, Brand, Brand, Brand, Brand, Brand, Brand, Brand, Brand, R, U>(
        rt, config, history, ledgers, purpose,
    )
}

fn in_swarm<
    J: Identity,
    L1: Ledger,
    L2: Ledger,
    L3: Ledger,
    L4: Ledger,
    L5: Ledger,
    L6: Ledger,
    L7: Ledger,
    L8: Ledger,
    R: Wait + AllocGlobal,
    U: SwarmUse,
>(
    rt: &R,
    config: Config,
    history: BlankHistory,
    ledgers: BlankLedgers,
    purpose: U,
) -> Result<U::Output, NewRefused>
    requires history { history ≡ J.book }
    requires config { config ≡ J.config }
    requires callers { 2 ≡ J.callers }
    requires first { (ledgers.first.name ≡ L1.name) × (ledgers.first.parts ≡ L1.parts) }
    requires second { (ledgers.second.name ≡ L2.name) × (ledgers.second.parts ≡ L2.parts) }
    requires third { (ledgers.third.name ≡ L3.name) × (ledgers.third.parts ≡ L3.parts) }
    requires fourth { (ledgers.fourth.name ≡ L4.name) × (ledgers.fourth.parts ≡ L4.parts) }
    requires fifth { (ledgers.fifth.name ≡ L5.name) × (ledgers.fifth.parts ≡ L5.parts) }
    requires sixth { (ledgers.sixth.name ≡ L6.name) × (ledgers.sixth.parts ≡ L6.parts) }
    requires seventh { (ledgers.seventh.name ≡ L7.name) × (ledgers.seventh.parts ≡ L7.parts) }
    requires eighth { (ledgers.eighth.name ≡ L8.name) × (ledgers.eighth.parts ≡ L8.parts) }
{
    let (swarm, mut passes) = Swarm::<NoGate, J, Eight<L1, L2, L3, L4, L5, L6, L7, L8>>::new(
        rt,
        rt.alloc(),
        config,
        2,
        NoGate,
        history,
        ledgers,
    )?;
    // There are two.
    let (Some(other), Some(one)) = (passes.pop(), passes.pop()) else {
        return Err(NewRefused::NoPlace);
    };
    // A pass holds a listing of some 50 kB, so what owns it is moved without it.
    let (Ok(one), Ok(other)) = (Box::new(rt.alloc(), one), Box::new(rt.alloc(), other)) else {
        return Err(NewRefused::OutOfMemory);
    };
    Ok(purpose.go(&swarm, one, other))
}
