//! Tests of streams, of routing (and so of dispatch and serving) and of an end of a connection, by public calls.
#![tactic(auto)]

#[cfg(test)]
mod asking_tests;
#[cfg(test)]
mod asserts;
#[cfg(test)]
mod core_tests;
#[cfg(test)]
mod counting;
#[cfg(test)]
mod dropping_tests;
#[cfg(test)]
mod echo;
#[cfg(test)]
mod greeting;
#[cfg(test)]
mod lending;
#[cfg(test)]
mod routing_tests;
#[cfg(test)]
mod stopping;
#[cfg(test)]
mod stream_tests;
