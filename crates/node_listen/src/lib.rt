//! A node alone that listens, and serves peers of any make.
#![tactic(auto)]

mod listening;
mod post;
mod shown;
mod watched;

pub use node_terms::{ListenTerms, Own, PeerEnding};
pub use post::listen;
pub use watched::Watched;
