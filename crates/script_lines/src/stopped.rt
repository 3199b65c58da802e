//! Why the playing of a script stops.

/// Why the playing of a script stopped.
#[derive(Clone, Copy, Debug, PartialEq, Eq)]
pub enum Stopped {
    /// The line of this number, from 1 on, says nothing.
    Line(u64),
    /// A write failed, or memory was refused.
    Unwritten,
    /// The script is longer than it may be, or it can't be read or held.
    Unread,
}
