//! What comes of data while a stream talks.

/// What comes of data while a stream talks.
#[derive(Clone, Copy, Debug, PartialEq, Eq)]
pub enum Heard {
    /// More bytes are needed.
    Going,
    /// Both ends agree on the protocol of this index, by so many bytes of the piece. The rest is the handler's.
    Agreed { index: usize, used: usize },
    /// The other end doesn't know the protocol that was asked for.
    Refused,
}
