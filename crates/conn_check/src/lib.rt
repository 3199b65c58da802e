//! Tests of links, and of connections over them, by public calls.
#![tactic(auto)]

#[cfg(test)]
mod failing_tests;
#[cfg(test)]
mod held_conn_tests;
#[cfg(test)]
mod held_socket_tests;
#[cfg(test)]
mod much_tests;
#[cfg(test)]
mod pipe_tests;
#[cfg(test)]
mod row_tests;
#[cfg(test)]
mod scripted_tests;
#[cfg(test)]
mod shut_tests;
#[cfg(test)]
mod size_tests;
#[cfg(test)]
mod socket_tests;
