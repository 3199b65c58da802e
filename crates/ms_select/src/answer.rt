//! What a negotiation answers.

/// Where a negotiation stands.
#[derive(Clone, Copy, Debug, PartialEq, Eq)]
pub enum Answer {
    /// Nothing is decided yet.
    Going,
    /// Both ends agree on the name of this index, in the list that this end was made with.
    Agreed(usize),
    /// Each name of this dialer was refused, or it has none. A listener never answers this.
    NoneLeft,
}

/// What a piece came to.
#[derive(Clone, Copy, Debug, PartialEq, Eq)]
pub struct Step {
    /// How many bytes of the piece belong to the negotiation. What follows them belongs to the protocol.
    pub used: usize,
    /// What was decided, or that it goes on.
    pub answer: Answer,
}
