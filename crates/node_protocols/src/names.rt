//! The names of the protocols, and what a node says of its program.

/// The index of identify (libp2p identify 1.0.0, "identify"): the end that opens the stream reads what the other one
/// says of itself.
pub const IDENTIFY: usize = 0;

/// The index of the push ("identify/push" there): the end that opens the stream says what it is.
pub const PUSH: usize = 1;

/// The index of ping (libp2p ping 1.0.0): the end that opens the stream sends 32 bytes, and awaits them back.
pub const PING: usize = 2;

/// The names, by these indexes.
pub(crate) const NAMES: [&str; 3] = ["/ipfs/id/1.0.0", "/ipfs/id/push/1.0.0", "/ipfs/ping/1.0.0"];

/// The version of a node's protocols.
pub(crate) const VERSION: &str = "node/1.0.0";
