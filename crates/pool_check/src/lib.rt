//! Tests of the pool of one thread, by public calls: names and limits at their ends, and scripts with their replies and
//! listings.
#![tactic(auto)]

#[cfg(test)]
mod part_tests;
#[cfg(test)]
mod pool_tests;

/// All rows of a table hold: else a test fails with how many do, from the first on. It is one function, since each
/// assertion is proved anew where it stands.
#[cfg(test)]
fn all_hold(rt: &impl std::process::Abort, held: usize, rows: usize) {
    assert_eq!(rt; held, rows, "so many rows hold");
}
