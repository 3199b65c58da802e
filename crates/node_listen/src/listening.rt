//! A node that listens, as one future.

use crate::shown::Shown;
use crate::watched::Watched;
use driver::Caller;
use futures::task::{Context, Poll};
use futures::{Future, ready};
use node_outfit::Outfit;
use node_terms::PeerEnding;
use std::alloc::Global;
use std::io;
use std::io::Write;
use std::net::Net;

/// How many turns are made in a row.
const MOST_TURNS: u32 = 32;

/// The index of identify.
const IDENTIFY: u8 = 0;

/// A node that listens until its input ends.
#[derive(Drop)]
pub struct Listening<'a, N: Net, C: Caller, I: Watched + Drop, O: Write + Drop> {
    outfit: Outfit<'a, N, C>,
    input: I,
    output: O,
    shown: Shown,
    /// How many ticks more it waits for its connections to be shut, where its input has ended.
    closing: Option<u32>,
    /// How many ticks it waits for them at most.
    patience: u32,
}

impl<'a, N: Net, C: Caller, I: Watched + Drop, O: Write + Drop> Listening<'a, N, C, I, O> {
    /// A node before its first look. Once its input has ended it waits so many ticks at most for its connections to be
    /// shut.
    pub fn new(
        alloc: Global,
        outfit: Outfit<'a, N, C>,
        patience: u32,
        input: I,
        output: O,
    ) -> Listening<'a, N, C, I, O> {
        Listening {
            outfit,
            input,
            output,
            shown: Shown::new(alloc),
            closing: None,
            patience,
        }
    }

    /// Prints what is new, and asks the peers that are new. Answers whether there was anything.
    fn look(&mut self) -> io::Result<bool> {
        self.outfit.caller.renew();
        let mut is_new = self
            .shown
            .print(self.outfit.caller.listing(), &mut self.output)?;
        for _ in 0..MOST_TURNS {
            let Some(number) = self.shown.next_unasked() else {
                break;
            };
            self.outfit.caller.ask(number, IDENTIFY);
            is_new = true;
        }
        Ok(is_new)
    }

    /// Whether it has shut all its connections.
    fn is_closed(&self) -> bool {
        match self.closing {
            Some(left) => left == 0 || self.outfit.caller.listing().conns.is_empty(),
            None => false,
        }
    }

    /// A tick has come.
    fn tick(&mut self) {
        match self.closing {
            Some(left) => self.closing = Some(left.saturating_sub(1)),
            None => {
                if self.input.has_ended() {
                    self.outfit.driver.close();
                    self.closing = Some(self.patience);
                }
            }
        }
    }

    /// Prints that it ends.
    fn end(&mut self) -> Result<(), PeerEnding> {
        writeln!(self.output, "end")?;
        self.output.flush()?;
        Ok(())
    }
}

impl<N: Net, C: Caller, I: Watched + Drop, O: Write + Drop> Future for Listening<'_, N, C, I, O> {
    type Output = Result<(), PeerEnding>;

    fn poll(&mut self, cx: &mut Context<'_>) -> Poll<Result<(), PeerEnding>> {
        for _ in 0..MOST_TURNS {
            self.outfit.driver.work(cx);
            match self.look() {
                Ok(true) => continue,
                Ok(false) => {}
                Err(_) => return Poll::Ready(Err(PeerEnding::Failed)),
            }
            if self.is_closed() {
                return Poll::Ready(self.end());
            }
            if ready!(self.outfit.ticks.poll_tick(cx)).is_err() {
                return Poll::Ready(Err(PeerEnding::Failed));
            }
            self.tick();
        }
        cx.yield_now()
    }
}
