//! What is done with values of any type: the proof of a function that lets go of a connection walks through all that it
//! holds, and of one that is generic it doesn't.

/// Puts a value behind the others, where there is room.
pub fn put<T: Drop>(list: &mut Vec<T>, value: T) {
    let _ = list.push(value);
}

/// Lets go of the value at this place, if there is one.
pub fn let_go<T: Drop>(list: &mut Vec<T>, at: usize) {
    if at < list.len() {
        list.swap_remove(at);
    }
}

/// Puts a value in place of another.
pub fn set<T: Drop>(place: &mut T, value: T) {
    *place = value;
}
