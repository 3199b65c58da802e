//! Tests of what serves a stream: handlers, ping, identify and the protocols of the program, by public calls.
#![tactic(auto)]

#[cfg(test)]
mod asserts;
#[cfg(test)]
mod driving;
#[cfg(test)]
mod fault_tests;
#[cfg(test)]
mod identify_tests;
#[cfg(test)]
mod message_tests;
#[cfg(test)]
mod ping_tests;
#[cfg(test)]
mod protocol_tests;
#[cfg(test)]
mod said;
