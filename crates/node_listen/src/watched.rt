//! An input whose end is looked for while a node serves.

/// An input whose end can be looked for without waiting for it.
pub trait Watched {
    /// Whether it has ended. What came of it until now may be dropped. An input that stands open and is silent hasn't
    /// ended.
    fn has_ended(&mut self) -> bool;
}

impl Watched for &[u8] {
    fn has_ended(&mut self) -> bool {
        true
    }
}

impl<W: Watched> Watched for &mut W {
    fn has_ended(&mut self) -> bool {
        (**self).has_ended()
    }
}
