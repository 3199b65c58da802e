//! What the tests of this crate assert. It stands here once, since an assertion is proved anew wherever it stands.

use std::fmt::Debug;
use std::process::Abort;

/// So it holds: else a test fails, and says of what.
pub fn holds<W: Debug + Drop>(rt: &impl Abort, of: W, held: bool) {
    assert!(rt; held, "{of:?}");
}
