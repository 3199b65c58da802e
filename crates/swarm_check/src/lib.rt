//! Tests of the swarm that threads share, by its public calls: the worked rows, threads at once whose history a pool of
//! one thread repeats, and listings beside a caller that is held under the lock.
#![tactic(auto)]

#[cfg(test)]
mod tests;
