//! What a node dials a peer for.

ghost use Rattle.std.specs.Prelude.{◌≡◌};
ghost use Rattle.node_terms.specs.Errands.{index_of, rounds_of};

/// What a node dials a peer for.
#[derive(Clone, Copy, Debug, PartialEq, Eq)]
pub enum Errand {
    /// So many pings, one after the other, each on a stream of its own.
    Ping(u32),
    /// What the peer says of itself.
    Identify,
}

impl Errand {
    /// The index of the protocol.
    pub fn index(self) -> u8
        ensures { result ≡ index_of self }
    {
        match self {
            Errand::Identify => 0,
            Errand::Ping(_) => 2,
        }
    }

    /// How many streams it takes.
    pub fn rounds(self) -> u32
        ensures { result ≡ rounds_of self }
    {
        match self {
            Errand::Identify => 1,
            Errand::Ping(count) => count,
        }
    }
}
