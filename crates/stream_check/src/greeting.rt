//! What both ends of a connection say until it is up.

/// The key of this end.
pub(crate) const KEY: &[u8] = b"\x08\x02\x12\x01\x05";

/// All that the other end sends in the upgrade, with a Secp256k1 key of one byte.
pub(crate) const OTHER: &[u8] = b"\x13/multistream/1.0.0\n\x11/plaintext/2.0.0\n\
    \x10\x0a\x07\0\x05\x08\x02\x12\x01\x06\x12\x05\x08\x02\x12\x01\x06\x13/multistream/1.0.0\n\x0d/yamux/1.0.0\n";

/// The room of a handler of `/mute`: the window of a stream, but for the 27 bytes of this end's talk.
pub(crate) const ROOM: usize = 262_117;
