//! A pool of connections that threads share: a swarm.
//!
//! Up to eight callers make pool calls, each by its pass. The calls of all of them stand in one legal history of the
//! pool of one thread (`pool_state`), and a listing, which waits for nobody, shows the pool after a beginning of that
//! history that has at least what its caller had seen. A caller that looks often renews its pass and borrows the pass's
//! listing (`Swarm::renew`, `Pass::listing`), which costs next to nothing where nothing changed; `Swarm::list` copies
//! it.
//!
//! # Example
//!
//! A swarm is made in a function that is generic in what its types name: its history, configuration and number of
//! callers (`Identity`), and a ledger for each of eight callers, also where there are fewer. Only that function writes
//! all these types; what it calls is generic in `L: Ledgers`. Here two callers call from a thread each, meet, list, and
//! close.
//!
//! ```rust
//! ghost use Rattle.std.specs.Prelude.{◌≡◌};
//!
//! use pool_state::{Config, Listing};
//! use std::alloc::Global;
//! use std::marker::Brand;
//! use std::sync::Wait;
//! use std::sync::ledger::Ledger;
//! use std::thread::{Threads, join};
//! use swarm_calls::{
//!     BlankHistory, BlankLedgers, Closed, Eight, Identity, Ledgers, NoGate, Pass, Swarm,
//! };
//!
//! /// What a caller does in its thread: it accepts a connection, and lists.
//! fn call<J: Identity, L: Ledgers, R: Wait>(
//!     rt: &R,
//!     swarm: &Swarm<NoGate, J, L>,
//!     mut pass: Pass<J, L>,
//! ) -> (Pass<J, L>, Listing) {
//!     swarm.accept(rt, &mut pass);
//!     let listing = swarm.list(&mut pass);
//!     (pass, listing)
//! }
//!
//! /// A swarm of two callers, from its making to its end.
//! fn serve<
//!     J: Identity + Send + Sync,
//!     L1: Ledger + Send + Sync,
//!     L2: Ledger + Send + Sync,
//!     L3: Ledger + Send + Sync,
//!     L4: Ledger + Send + Sync,
//!     L5: Ledger + Send + Sync,
//!     L6: Ledger + Send + Sync,
//!     L7: Ledger + Send + Sync,
//!     L8: Ledger + Send + Sync,
//!     R: Threads + Wait + Sync,
//! >(
//!     rt: &R,
//!     alloc: Global,
//!     config: Config,
//!     history: BlankHistory,
//!     ledgers: BlankLedgers,
//! ) -> Option<(Listing, Closed)>
//!     requires history { history ≡ J.book }
//!     requires config { config ≡ J.config }
//!     requires callers { J.callers ≡ 2 }
//!     requires first { (ledgers.first.name ≡ L1.name) × (ledgers.first.parts ≡ L1.parts) }
//!     requires second { (ledgers.second.name ≡ L2.name) × (ledgers.second.parts ≡ L2.parts) }
//!     requires third { (ledgers.third.name ≡ L3.name) × (ledgers.third.parts ≡ L3.parts) }
//!     requires fourth { (ledgers.fourth.name ≡ L4.name) × (ledgers.fourth.parts ≡ L4.parts) }
//!     requires fifth { (ledgers.fifth.name ≡ L5.name) × (ledgers.fifth.parts ≡ L5.parts) }
//!     requires sixth { (ledgers.sixth.name ≡ L6.name) × (ledgers.sixth.parts ≡ L6.parts) }
//!     requires seventh { (ledgers.seventh.name ≡ L7.name) × (ledgers.seventh.parts ≡ L7.parts) }
//!     requires eighth { (ledgers.eighth.name ≡ L8.name) × (ledgers.eighth.parts ≡ L8.parts) }
//! {
//!     let made = Swarm::<NoGate, J, Eight<L1, L2, L3, L4, L5, L6, L7, L8>>::new(
//!         rt, alloc, config, 2, NoGate, history, ledgers,
//!     );
//!     let (swarm, mut passes) = made.ok()?;
//!     let (two, one) = (passes.pop()?, passes.pop()?);
//!     let shared = &swarm;
//!     let ((mut one, _), (mut two, _)) = join(
//!         rt,
//!         move || call(rt, shared, one),
//!         move || call(rt, shared, two),
//!     );
//!     swarm.meet(rt, &mut one, &mut two);
//!     let listing = swarm.list(&mut one);
//!     passes.push(one).ok()?;
//!     passes.push(two).ok()?;
//!     let closed = swarm.close(rt, passes).ok()?;
//!     Some((listing, closed))
//! }
//! ```
//!
//! It is called with a new history, new ledgers, and `Brand` for each type:
//!
//! ```rust
//! serve::<Brand, Brand, Brand, Brand, Brand, Brand, Brand, Brand, Brand, _>(
//!     &rt, rt.alloc(), config, BlankHistory::new(), BlankLedgers::new(),
//! )
//! ```
//!
//! The caller's `Invariants.antt` says what each `Brand` names, for the ledgers `L2` to `L8` as for `L1`:
//!
//! ```antt
//! abbrev pub ghosts-serve-J-Identity : goal.ghosts-serve-J-Identity
//! ghosts-serve-J-Identity g a = record { book = a.history; config = a.config; callers = 2 }
//!
//! abbrev pub ghosts-serve-L1-Ledger : goal.ghosts-serve-L1-Ledger
//! ghosts-serve-L1-Ledger g a = record { name = a.ledgers.first.name; parts = a.ledgers.first.parts }
//! ```
#![tactic(auto)]

mod addition;
mod entry;
mod history;
mod identity;
mod inside;
pub mod laws;
mod ledgers;
mod pass;
mod rule;
mod snapshot;
mod swarm;

pub use history::BlankHistory;
pub use identity::Identity;
pub use ledgers::{BlankLedgers, Eight, Ledgers};
pub use pass::Pass;
pub use swarm::{Closed, Gate, NewRefused, NoGate, Swarm};
