//! What the tests of this crate assert. It stands here once, since an assertion is proved anew wherever it stands.

use std::alloc::Global;
use std::fmt::{Debug, Display};
use std::process::Abort;

/// So it holds: else a test fails, and says of what.
pub(crate) fn holds<W: Debug + Drop>(rt: &impl Abort, of: W, held: bool) {
    assert!(rt; held, "{of:?}");
}

/// Whether the value is printed so.
pub(crate) fn is_shown<T: Display>(alloc: Global, value: &T, text: &str) -> bool {
    match format!(in alloc; "{value}") {
        Ok(told) => told.as_str() == text,
        Err(_) => false,
    }
}
