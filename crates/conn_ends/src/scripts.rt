//! Lists of steps of a pipe, written as codes, and pseudo-random numbers.

ghost use Rattle.std.specs.Prelude.{IfSome};
ghost use Rattle.std.specs.List.{All};
ghost use Rattle.conn_link.specs.Piping.{CanGo};

use conn_link::{LinkFault, PipeStep};
use futures::task::Poll;
use std::alloc::Global;

/// The code of a call that is pending.
pub const PENDING: u8 = 0;

/// The code of a call that fails. Any other stands for a call that moves so many bytes at most.
pub const FAIL: u8 = 255;

fn step_of(code: u8) -> PipeStep
    ensures { CanGo result }
{
    match code {
        PENDING => PipeStep::Pending,
        FAIL => PipeStep::Fail,
        most => PipeStep::Upto(usize::from(most).max(1)),
    }
}

/// The steps that these codes stand for.
pub fn steps_of(alloc: Global, codes: &[u8]) -> Option<Vec<PipeStep>>
    ensures { IfSome result (λ steps. All CanGo steps.items) }
{
    let mut steps = Vec::new(alloc);
    for code in codes {
        steps.push(step_of(*code)).ok()?;
    }
    Some(steps)
}

/// What a call answers: a digit stands for so many bytes, p for a call that is pending, f for one that fails.
pub fn answer_of(letter: u8) -> Poll<Result<usize, LinkFault>> {
    match letter {
        b'p' => Poll::Pending,
        b'f' => Poll::Ready(Err(LinkFault)),
        digit => Poll::Ready(Ok(usize::from(digit.saturating_sub(b'0')))),
    }
}

/// So many times these two codes in turn.
pub fn in_turn(alloc: Global, first: u8, second: u8, count: u32) -> Option<Vec<u8>> {
    let mut codes = Vec::new(alloc);
    for _ in 0..count {
        codes.push(first).ok()?;
        codes.push(second).ok()?;
    }
    Some(codes)
}

/// A call of this code, and then so many of the other.
pub fn first_then(alloc: Global, first: u8, other: u8, count: u32) -> Option<Vec<u8>> {
    let mut codes = Vec::new(alloc);
    codes.push(first).ok()?;
    for _ in 0..count {
        codes.push(other).ok()?;
    }
    Some(codes)
}

/// So many calls of this code, and then one that fails.
pub fn failing_at(alloc: Global, count: u32, code: u8) -> Option<Vec<u8>> {
    let mut codes = Vec::new(alloc);
    for _ in 0..count {
        codes.push(code).ok()?;
    }
    codes.push(FAIL).ok()?;
    Some(codes)
}

/// Numbers that look random (the multiplier and the increment of Knuth's MMIX).
#[derive(Clone, Copy, Debug, PartialEq, Eq)]
pub struct Random {
    pub state: u64,
}

impl Random {
    /// The next number below `end`; 0 where that is 0.
    pub fn below(&mut self, end: u32) -> u32 {
        self.state = self
            .state
            .wrapping_mul(6_364_136_223_846_793_005)
            .wrapping_add(1_442_695_040_888_963_407);
        let high = u32::try_from(self.state >> 33).unwrap_or(0);
        high.checked_rem(end).unwrap_or(0)
    }

    /// The next byte below `end`, which is at least 1.
    pub fn byte_below(&mut self, end: u8) -> u8 {
        u8::try_from(self.below(u32::from(end))).unwrap_or(0)
    }
}

/// Some calls: most move up to `most` bytes, some are pending, and, where that is wanted, the last one fails.
pub fn random_codes(
    alloc: Global,
    random: &mut Random,
    count: u32,
    most: u8,
    has_failure: bool,
) -> Option<Vec<u8>> {
    let mut codes = Vec::new(alloc);
    for _ in 0..count {
        let code = if random.below(4) == 0 {
            PENDING
        } else {
            random.byte_below(most).saturating_add(1).min(254)
        };
        codes.push(code).ok()?;
    }
    if has_failure {
        codes.push(FAIL).ok()?;
    }
    Some(codes)
}
