//! Tests of a yamux session, by public calls.
#![tactic(auto)]

#[cfg(test)]
mod session_tests;
