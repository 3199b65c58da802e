//! What a stream came to.

ghost use Rattle.std.specs.Prelude.{◌≡◌, None};

use streams::Cause;

/// Where a stream is, once it was served.
#[derive(Drop)]
pub enum Outcome<H> {
    /// It goes on.
    Going,
    /// Its handler is finished, and handed out.
    Done(H),
    /// The other end doesn't know the protocol that was asked for.
    Refused,
    /// It is given up.
    Broken(Cause),
}

/// What a stream came to by data that was delivered.
#[derive(Drop)]
pub struct Delivered<H> {
    /// The index of the protocol on which both ends agree by it.
    pub agreed: Option<usize>,
    /// Where the stream is then.
    pub outcome: Outcome<H>,
}

impl<H> Delivered<H> {
    /// What came of data by which nothing was agreed on.
    pub(crate) fn by_none(outcome: Outcome<H>) -> Delivered<H>
        ensures { result ≡ record { agreed = None; outcome = outcome } }
    {
        Delivered {
            agreed: None,
            outcome,
        }
    }
}
