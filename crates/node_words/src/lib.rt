//! What the words of the command line of `node` ask for. Nothing is done here.
#![tactic(auto)]

mod command;
mod dial_options;
mod listen_options;
mod options;
mod trace_options;
mod values;

pub use command::{Asked, Unasked, read};
pub use dial_options::Dialer;
pub use listen_options::Listener;
pub use node_terms::Errand;
pub use options::BadOption;
pub use trace_options::Traced;
