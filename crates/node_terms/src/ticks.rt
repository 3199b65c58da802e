//! Times, counted in ticks.

ghost use Rattle.std.specs.Prelude.{◌≡◌, ◌<◌, ◌-◌, ◌^◌, ◌/◌, max, min};
ghost use Rattle.std.specs.Duration.{as_nanos};

use std::time::Duration;

/// How many ticks of so many milliseconds lie in a time, at least one.
pub fn ticks_in(limit: Duration, tick: u64) -> u32
    requires { 0 < tick }
    ensures { result ≡ max 1 (min (2 ^ 32 - 1) (as_nanos limit / 1_000_000 / tick)) }
{
    let ticks = limit.as_millis() / u128::from(tick);
    u32::try_from(ticks).unwrap_or(u32::MAX).max(1)
}
