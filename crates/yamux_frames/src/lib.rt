//! Frames of yamux (the hashicorp specification): headers, and a stream of bytes that is cut into headers and payloads.
//!
//! Nothing here takes memory. [`Header::read`] and [`Header::write`] go between a header and its twelve bytes; a
//! [`Cutter`] is fed the bytes of a connection in any pieces and answers header after header, and of each payload its
//! parts.
#![tactic(auto)]

mod cutter;
mod header;
pub mod laws;

pub use cutter::{Cut, Cutter};
pub use header::{FrameFault, FrameKind, Header};
