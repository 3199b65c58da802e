//! What holds of every history of a swarm's callers. The bodies are empty: the clauses are the laws.

ghost use Rattle.std.specs.Prelude.{◌≡◌, ℕ, List, length};
ghost use Rattle.pool_state.specs.History.{Entry};
ghost use Rattle.swarm_calls.specs.History.{IsOf, calls_of};

/// A history of the calls of these callers alone is as long as their calls are many.
pub fn calls_add_up()
    ensures { (callers : ℕ) (history : List Entry) → IsOf callers history
        → length history ≡ calls_of callers history }
{}
