//! Which swarm it is.

use std::marker::Brand;

/// Which swarm it is: its history, its configuration and how many callers it has. All types of one swarm carry it, so
/// what lies under the lock and what the passes hold agree on it. No value of it is made: the function that makes a
/// swarm is generic in it, and whoever calls that function picks it.
pub trait Identity {
    ghost use Rattle.std.specs.Prelude.{ℕ};
    ghost use Rattle.logbook.specs.Pages.{Book};
    ghost use Rattle.pool_state.specs.declared.limits.Config.{Config};

    ghost book: { Book };

    ghost config: { Config };

    ghost callers: { ℕ };
}

// A caller's pick stands in its place.
impl Identity for Brand {
    ghost use Rattle.swarm_calls.specs.AnyConfig.{any_config};

    ghost book = { record { number = 0; log_name = 0; cells_name = 0 } };

    ghost config = { any_config };

    ghost callers = { 1 };
}
