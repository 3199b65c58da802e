//! The steps of a pipe.

/// What one read or write of a pipe does.
#[derive(Clone, Copy, Debug, PartialEq, Eq, Drop)]
pub enum PipeStep {
    /// Moves all that it can, but no more than so many bytes, which is at least 1.
    Upto(usize),
    /// Moves nothing, and asks to be polled again.
    Pending,
    /// Moves nothing, and counts as a failure.
    Fail,
}
