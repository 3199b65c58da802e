//! Tests of what the program `node` can't show from outside: a node whose listings are frozen, and what is told where
//! memory is wanting. `tools/test-node` runs the program itself.
#![tactic(auto)]

#[cfg(test)]
mod ending_tests;
#[cfg(test)]
mod frozen_tests;
