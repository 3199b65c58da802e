//! What the tests of this crate assert. It stands here once, since an assertion is proved anew wherever it stands.

use std::alloc::Global;
use std::fmt::{Debug, Display};
use std::process::Abort;

/// The two are equal: else a test fails, and says of what.
pub fn same<W: Debug + Drop, T: PartialEq + Debug + Drop>(
    rt: &impl Abort,
    of: W,
    found: T,
    wanted: T,
) {
    assert_eq!(rt; found, wanted, "{of:?}");
}

/// So it holds: else a test fails, and says of what.
pub fn holds<W: Debug + Drop>(rt: &impl Abort, of: W, held: bool) {
    assert!(rt; held, "{of:?}");
}

/// Whether the value is printed so.
pub fn is_shown<T: Display>(alloc: Global, value: &T, text: &str) -> bool {
    match format!(in alloc; "{value}") {
        Ok(shown) => shown.as_str() == text,
        Err(_) => false,
    }
}

/// A fault, or a refusal, that has a number.
pub trait Fault: Copy + PartialEq + Display {
    /// Its number.
    fn number(self) -> usize;
}

/// A fault, its number and its text.
pub type Told<F> = (F, usize, &'static str);

/// Whether the fault has its number and its text, and is equal to that of this number alone.
fn is_fault<F: Fault>(alloc: Global, faults: &[Told<F>], told: &Told<F>) -> bool {
    let (fault, number, text) = told;
    let mut held = fault.number() == *number && is_shown(alloc, fault, *text);
    for (other, place, _) in faults {
        held = held && (*fault == *other) == (*number == *place);
    }
    held
}

/// Each fault has its number and its text, and is equal to itself alone.
pub fn are_faults<F: Fault>(rt: &impl Abort, alloc: Global, faults: &[Told<F>]) {
    for told in faults {
        holds(rt, told.2, is_fault(alloc, faults, told));
    }
}
