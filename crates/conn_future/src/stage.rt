//! How far a connection is.

ghost use Rattle.std.specs.Prelude.{◌≡◌};
ghost use Rattle.conn_future.specs.Stages.{is_live};

/// How far a connection over a link is.
#[derive(Clone, Copy, Debug, PartialEq, Eq)]
pub enum Stage {
    /// It reads and writes.
    Going,
    /// `shut` was called: it reads no more, writes what is left, and shuts the link.
    Shutting,
    /// Memory was refused: it makes no link call more, and tells so behind the events that it holds.
    Starved,
    /// It makes no link call more, and gives the events that it holds.
    Over,
}

impl Stage {
    /// Whether a poll may make link calls.
    pub(crate) fn is_live(self) -> bool
        ensures { result ≡ is_live self }
    {
        match self {
            Stage::Going | Stage::Shutting => true,
            Stage::Starved | Stage::Over => false,
        }
    }
}
