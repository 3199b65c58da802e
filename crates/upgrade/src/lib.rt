//! How a connection comes up, for a stream of bytes that comes in any pieces: a talk on plaintext, an exchange of keys,
//! and a talk on yamux. It takes bytes and gives bytes, and hands out the end that has proven its key.
#![tactic(auto)]

mod fault;
pub mod laws;
mod role;
mod run;
mod stages;
mod upgrade;

pub use fault::UpgradeFault;
pub use role::ConnRole;
pub use run::{Upgraded, bring_up};
pub use upgrade::{Progress, Upgrade};
