//! The run of a script, as one future.

use crate::ending::RunEnding;
use crate::side::Side;
use driver::Caller;
use futures::task::{Context, Poll};
use futures::{Future, ready};
use node_lines::{Act, Awaited, Name, print_awaited, script_line_of};
use std::io::Write;
use std::net::Net;
use std::time::Clock;
use tokio::time::Interval;

/// At how many listings an await looks before it gives up, one a tick.
const MOST_LOOKS: u32 = 500;

/// How many lines and ticks have their turn in a row.
const MOST_TURNS: u32 = 32;

/// What is awaited.
#[derive(Clone, Copy)]
struct Watch {
    name: Name,
    awaited: Awaited,
    /// How many listings were looked at.
    looks: u32,
}

/// What a turn of the script comes to.
enum Turn {
    /// It goes on.
    On,
    /// It waits for the next tick.
    Wait,
    /// It is over.
    Over,
}

/// The run of a script on two nodes.
#[derive(Drop)]
pub struct Run<'a, N: Net + Clock, A: Caller, B: Caller, O: Write + Drop> {
    clock: &'a N,
    a: Side<'a, N, A>,
    b: Side<'a, N, B>,
    script: &'a [u8],
    /// How many bytes of the script were read.
    at: usize,
    /// How many lines of the script were read.
    number: u64,
    watch: Option<Watch>,
    /// Whether the next look waits for a tick.
    waits: bool,
    ticks: Interval,
    output: O,
}

impl<'a, N: Net + Clock, A: Caller, B: Caller, O: Write + Drop> Run<'a, N, A, B, O> {
    /// A run before its first line.
    pub fn new(
        clock: &'a N,
        a: Side<'a, N, A>,
        b: Side<'a, N, B>,
        script: &'a [u8],
        ticks: Interval,
        output: O,
    ) -> Run<'a, N, A, B, O> {
        Run {
            clock,
            a,
            b,
            script,
            at: 0,
            number: 0,
            watch: None,
            waits: false,
            ticks,
            output,
        }
    }

    /// The next line, without its end.
    fn next_line(&mut self) -> Option<&'a [u8]> {
        let rest = self.script.get(self.at..)?;
        let len = rest
            .iter()
            .position(|byte| *byte == b'\n')
            .unwrap_or(rest.len());
        self.at = self.at.saturating_add(len).saturating_add(1);
        self.number = self.number.saturating_add(1);
        rest.get(..len)
    }

    /// A turn of the script: a line, or a look at what is awaited.
    fn turn(&mut self) -> Result<Turn, RunEnding> {
        if let Some(watch) = self.watch {
            return self.look(watch);
        }
        let Some(line) = self.next_line() else {
            return Ok(Turn::Over);
        };
        if line.is_empty() {
            return Ok(Turn::On);
        }
        match script_line_of(line) {
            Some((name, act)) => self.act(name, act)?,
            None => return Err(RunEnding::Line(self.number)),
        }
        Ok(Turn::On)
    }

    /// Does what a line asks for.
    fn act(&mut self, name: Name, act: Act) -> Result<(), RunEnding> {
        if let Act::Await(awaited) = act {
            self.output.flush()?;
            self.ticks.reset(self.clock)?;
            self.watch = Some(Watch {
                name,
                awaited,
                looks: 0,
            });
            return Ok(());
        }
        match name {
            Name::A => self.a.act(act, &mut self.b, &mut self.output),
            Name::B => self.b.act(act, &mut self.a, &mut self.output),
        }
    }

    /// Looks at a listing for what is awaited.
    fn look(&mut self, watch: Watch) -> Result<Turn, RunEnding> {
        let is_shown = match watch.name {
            Name::A => self.a.shows(watch.awaited),
            Name::B => self.b.shows(watch.awaited),
        };
        if is_shown {
            self.watch = None;
            print_awaited(watch.name.begin(), watch.awaited, &mut self.output)?;
            return Ok(Turn::On);
        }
        let looks = watch.looks.saturating_add(1);
        if looks >= MOST_LOOKS {
            return Err(RunEnding::GaveUp);
        }
        self.watch = Some(Watch { looks, ..watch });
        Ok(Turn::Wait)
    }
}

impl<N: Net + Clock, A: Caller, B: Caller, O: Write + Drop> Future for Run<'_, N, A, B, O> {
    type Output = Result<(), RunEnding>;

    fn poll(&mut self, cx: &mut Context<'_>) -> Poll<Result<(), RunEnding>> {
        for _ in 0..MOST_TURNS {
            self.a.driver.work(cx);
            self.b.driver.work(cx);
            if self.waits {
                if ready!(self.ticks.poll_tick(cx)).is_err() {
                    return Poll::Ready(Err(RunEnding::Failed));
                }
                self.waits = false;
            }
            match self.turn() {
                Ok(Turn::On) => {}
                Ok(Turn::Wait) => self.waits = true,
                Ok(Turn::Over) => return Poll::Ready(Ok(())),
                Err(ending) => return Poll::Ready(Err(ending)),
            }
        }
        cx.yield_now()
    }
}
