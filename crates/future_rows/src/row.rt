//! The row: what comes to the dialer, and what it writes.

/// The message of a key (Secp256k1, of one byte), which both ends have here.
pub const KEY: &[u8] = b"\x08\x02\x12\x01\x05";

/// What each end sends until the connection is up.
pub const UPGRADE: &[u8] = b"\x13/multistream/1.0.0\n\x11/plaintext/2.0.0\n\
    \x10\x0a\x07\0\x05\x08\x02\x12\x01\x05\x12\x05\x08\x02\x12\x01\x05\x13/multistream/1.0.0\n\x0d/yamux/1.0.0\n";

/// The header and the name of ping on stream 1, the pong, and FIN.
pub const PONGS: &[u8] = b"\0\0\0\0\0\0\0\x01\0\0\0\x26\
    \x13/multistream/1.0.0\n\x11/ipfs/ping/1.0.0\n\0\0\0\0\0\0\0\x01\0\0\0\x20\
    \x07\x07\x07\x07\x07\x07\x07\x07\x07\x07\x07\x07\x07\x07\x07\x07\
    \x07\x07\x07\x07\x07\x07\x07\x07\x07\x07\x07\x07\x07\x07\x07\x07\
    \0\x01\0\x04\0\0\0\x01\0\0\0\0";

/// SYN of stream 1, and on it the header, the name of ping, and a ping before any answer, and FIN.
pub const ASKS: &[u8] = b"\0\x01\0\x01\0\0\0\x01\0\0\0\0\0\0\0\0\0\0\0\x01\0\0\0\x46\
    \x13/multistream/1.0.0\n\x11/ipfs/ping/1.0.0\n\
    \x07\x07\x07\x07\x07\x07\x07\x07\x07\x07\x07\x07\x07\x07\x07\x07\
    \x07\x07\x07\x07\x07\x07\x07\x07\x07\x07\x07\x07\x07\x07\x07\x07\
    \0\x01\0\x04\0\0\0\x01\0\0\0\0";

/// What is told, by its kind.
#[derive(Clone, Copy, Debug, PartialEq, Eq)]
pub enum Said {
    Upgraded,
    Agreed,
    Done,
    /// A stream is broken, but for want of memory.
    Broken,
    /// A stream is broken for want of memory.
    Short,
    Shut,
    Link,
    OutOfMemory,
    Other,
}

/// What is told with ample memory.
pub const TOLD: [Said; 4] = [Said::Upgraded, Said::Agreed, Said::Done, Said::Shut];
