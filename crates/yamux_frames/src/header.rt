//! The header of a frame.

ghost use Rattle.std.specs.Prelude.{◌≡◌, IfOk, IfErr};
ghost use Rattle.yamux_frames.specs.Spelling.{header_bytes, payload_length, HasFault, IsHeader};

use thiserror::Error;

/// The type of a frame.
#[derive(Clone, Copy, Debug, PartialEq, Eq)]
pub enum FrameKind {
    /// Data, type 0: bytes of a stream follow the header.
    Payload = 0,
    /// WindowUpdate, type 1: adds to the credit of a stream.
    Window,
    /// Ping, type 2: asks for an answer, or is one.
    Ping,
    /// GoAway, type 3: the sender takes no more streams.
    GoAway,
}

/// Why twelve bytes are no header. The version is looked at first.
#[derive(Clone, Copy, Debug, PartialEq, Eq, Hash, Error)]
pub enum FrameFault {
    /// The first byte, the version, isn't 0.
    #[error("a frame has another version than 0")]
    BadVersion = 1,
    /// The version is 0, and the second byte, the type, is above 3.
    #[error("a frame has an unknown type")]
    BadType,
}

/// The header of a frame: twelve bytes, which begin with version 0, every number big-endian.
#[derive(Clone, Copy, Debug, PartialEq, Eq)]
pub struct Header {
    /// The type.
    pub kind: FrameKind,
    /// `SYN`, `ACK`, `FIN` and `RST` of this type, added up. Other bits are kept as they are.
    pub flags: u16,
    /// The number of the stream; 0 is the connection itself.
    pub stream: u32,
    /// Of Data how many bytes follow, of WindowUpdate the credit that is added, of Ping a value to be sent back, of
    /// GoAway a code, as [`Header::NORMAL_TERMINATION`].
    pub length: u32,
}

impl Header {
    /// The frame opens its stream; a Ping asks for an answer.
    pub const SYN: u16 = 1;
    /// The frame accepts its stream; a Ping is an answer.
    pub const ACK: u16 = 2;
    /// The sender's direction of the stream ends with this frame.
    pub const FIN: u16 = 4;
    /// Both directions of the stream end with this frame.
    pub const RST: u16 = 8;

    /// The code of a GoAway that says: nothing is wrong.
    pub const NORMAL_TERMINATION: u32 = 0;
    /// The code of a GoAway that says: the other end broke the protocol.
    pub const PROTOCOL_ERROR: u32 = 1;
    /// The code of a GoAway that says: this end can't go on.
    pub const INTERNAL_ERROR: u32 = 2;

    /// Reads twelve bytes: the one header that they spell, or why they are none.
    pub fn read(bytes: &[u8; 12]) -> Result<Header, FrameFault>
        ensures spelled { IfOk result (λ header. bytes.now ≡ header_bytes header) }
        ensures in_range { IfOk result (λ header. IsHeader header) }
        ensures faulty { IfErr result (λ fault. HasFault bytes.now fault) }
    {
        let [version, kind, f0, f1, s0, s1, s2, s3, l0, l1, l2, l3] = *bytes;
        if version != 0 {
            return Err(FrameFault::BadVersion);
        }
        let kind = match kind {
            0 => FrameKind::Payload,
            1 => FrameKind::Window,
            2 => FrameKind::Ping,
            3 => FrameKind::GoAway,
            _ => return Err(FrameFault::BadType),
        };
        let flags = u16::from_be_bytes([f0, f1]);
        let stream = u32::from_be_bytes([s0, s1, s2, s3]);
        let length = u32::from_be_bytes([l0, l1, l2, l3]);
        Ok(Header {
            kind,
            flags,
            stream,
            length,
        })
    }

    /// How many bytes of payload follow: of Data its length, else none.
    pub fn payload_length(&self) -> u32
        ensures { result ≡ payload_length self.now }
    {
        match self.kind {
            FrameKind::Payload => self.length,
            FrameKind::Window | FrameKind::Ping | FrameKind::GoAway => 0,
        }
    }

    /// The twelve bytes that spell this header.
    pub fn write(&self) -> [u8; 12]
        ensures { result ≡ header_bytes self.now }
    {
        let kind = match self.kind {
            FrameKind::Payload => 0,
            FrameKind::Window => 1,
            FrameKind::Ping => 2,
            FrameKind::GoAway => 3,
        };
        let [f0, f1] = self.flags.to_be_bytes();
        let [s0, s1, s2, s3] = self.stream.to_be_bytes();
        let [l0, l1, l2, l3] = self.length.to_be_bytes();
        [0, kind, f0, f1, s0, s1, s2, s3, l0, l1, l2, l3]
    }
}
