//! What the tests let go of. Whatever it is, it is let go of here alone: a function that owns a connection, a stream or
//! events has to prove that of each way out.

/// Lends what was made, if it was.
pub(crate) fn lend<T: Drop, R, F: FnOnce(&mut T) -> R + Drop>(made: Option<T>, play: F) -> Option<R>
    requires { F.IsAlwaysCallable play }
{
    match made {
        Some(mut made) => Some(play(&mut made)),
        None => None,
    }
}

/// Whether what came, if it came, holds.
pub(crate) fn holds<T: Drop, E: Drop, F: FnOnce(&T) -> bool + Drop>(
    came: Result<T, E>,
    is_so: F,
) -> bool
    requires { F.IsAlwaysCallable is_so }
{
    match came {
        Ok(came) => is_so(&came),
        Err(_) => false,
    }
}

/// Whether something came.
pub(crate) fn came<T: Drop, E: Drop>(answer: Result<T, E>) -> bool {
    answer.is_ok()
}

/// Puts a value into its place.
pub(crate) fn set<T: Drop>(place: &mut T, value: T) {
    *place = value;
}

/// Whether something was handed out.
pub(crate) fn is_there<T: Drop>(out: Option<T>) -> bool {
    out.is_some()
}
