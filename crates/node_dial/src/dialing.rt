//! A node that dials a peer for an errand, as one future.

use driver::{Caller, MOST_REPORTS, Report, StreamEnd};
use futures::task::{Context, Poll};
use futures::{Future, ready};
use node_outfit::Outfit;
use node_terms::{Errand, PeerEnding};
use peer_texts::print_said;
use pool_state::{Phase, Refusal, Reply};
use std::alloc::Global;
use std::io::Write;
use std::net::Net;

/// How many turns are made in a row.
const MOST_TURNS: u32 = 32;

/// How far an errand is.
#[derive(Clone, Copy, Debug, PartialEq, Eq)]
enum Step {
    /// The connection isn't live yet.
    Upgrading,
    /// A stream was asked for, and isn't over.
    Asked,
    /// All is done, and the connection is being shut.
    Closing,
    /// The connection has ended behind that.
    Over,
}

/// A node that dials a peer for an errand.
#[derive(Drop)]
pub struct Dialing<'a, N: Net, C: Caller, O: Write + Drop> {
    alloc: Global,
    outfit: Outfit<'a, N, C>,
    /// The number of the connection.
    conn: u32,
    errand: Errand,
    step: Step,
    /// How many streams did what they were for.
    done: u32,
    /// How many ticks a step may take.
    patience: u32,
    /// How many of them are left.
    left: u32,
    output: O,
}

impl<'a, N: Net, C: Caller, O: Write + Drop> Dialing<'a, N, C, O> {
    /// A node whose connection of this number is admitted. Each step of the errand may take so many ticks.
    pub fn new(
        alloc: Global,
        outfit: Outfit<'a, N, C>,
        conn: u32,
        errand: Errand,
        patience: u32,
        output: O,
    ) -> Dialing<'a, N, C, O> {
        Dialing {
            alloc,
            outfit,
            conn,
            errand,
            step: Step::Upgrading,
            done: 0,
            patience,
            left: patience,
            output,
        }
    }

    /// Goes on with the errand. Answers whether the driver has more to do now.
    fn turn(&mut self) -> Result<bool, PeerEnding> {
        self.outfit.caller.renew();
        if self.step == Step::Upgrading && self.meet()? {
            return Ok(true);
        }
        for _ in 0..MOST_REPORTS {
            match self.outfit.driver.take_report() {
                Some(Report::Conn(_, _)) if self.step == Step::Closing => self.step = Step::Over,
                Some(Report::Conn(_, end)) => return Err(PeerEnding::of_conn(end)),
                Some(Report::Stream(_, _, end)) => {
                    if self.hear(end)? {
                        return Ok(true);
                    }
                }
                None => break,
            }
        }
        Ok(false)
    }

    /// Tells who the peer is once the connection is live, and asks for the first stream.
    fn meet(&mut self) -> Result<bool, PeerEnding> {
        let rows = self.outfit.caller.listing().conns.iter();
        let row = rows.copied().find(|row| row.phase == Phase::Live);
        let Some(peer) = row.and_then(|row| row.peer) else {
            return Ok(false);
        };
        writeln!(self.output, "peer {peer}")?;
        self.output.flush()?;
        self.ask()?;
        Ok(true)
    }

    /// Asks for a stream.
    fn ask(&mut self) -> Result<(), PeerEnding> {
        self.step = Step::Asked;
        self.left = self.patience;
        match self.outfit.caller.ask(self.conn, self.errand.index()) {
            Reply::Refused(Refusal::OutOfMemory) => Err(PeerEnding::Failed),
            // Where the connection has ended meanwhile, a report tells why.
            _ => Ok(()),
        }
    }

    /// Hears how a stream ended. Answers whether the driver has more to do now.
    fn hear(&mut self, end: StreamEnd) -> Result<bool, PeerEnding> {
        if self.step != Step::Asked {
            return Ok(false);
        }
        if end != StreamEnd::Done {
            return self.pass_over(end);
        }
        self.done = self.done.saturating_add(1);
        self.tell()?;
        if self.done < self.errand.rounds() {
            self.ask()?;
        } else {
            self.step = Step::Closing;
            self.left = self.patience;
            self.outfit.driver.close();
        }
        Ok(true)
    }

    /// A stream that couldn't be opened since the connection has ended is told of by the connection's report.
    fn pass_over(&mut self, end: StreamEnd) -> Result<bool, PeerEnding> {
        match (end, self.errand) {
            (StreamEnd::Unopened(_), _) => Ok(false),
            (end, Errand::Ping(_)) => Err(PeerEnding::of_ping(end)),
            (end, Errand::Identify) => Err(PeerEnding::of_identify(end)),
        }
    }

    /// Prints what came of a stream.
    fn tell(&mut self) -> Result<(), PeerEnding> {
        match self.errand {
            Errand::Ping(_) => writeln!(self.output, "pong {}", self.done)?,
            Errand::Identify => {
                if let Some(said) = self.outfit.driver.identify(self.conn) {
                    print_said(self.alloc, said, &mut self.output)?;
                }
            }
        }
        self.output.flush()?;
        Ok(())
    }

    /// A tick has come. Answers whether the step has time left.
    fn tick(&mut self) -> bool {
        self.left = self.left.saturating_sub(1);
        self.left > 0
    }

    /// What it comes to that a step had no time left. The errand is done where the connection is being shut.
    fn outcome(&self) -> Result<(), PeerEnding> {
        match self.step {
            Step::Upgrading | Step::Asked => Err(PeerEnding::NoAnswer),
            Step::Closing | Step::Over => Ok(()),
        }
    }
}

impl<N: Net, C: Caller, O: Write + Drop> Future for Dialing<'_, N, C, O> {
    type Output = Result<(), PeerEnding>;

    fn poll(&mut self, cx: &mut Context<'_>) -> Poll<Result<(), PeerEnding>> {
        for _ in 0..MOST_TURNS {
            self.outfit.driver.work(cx);
            match self.turn() {
                Ok(true) => continue,
                Ok(false) => {}
                Err(ending) => return Poll::Ready(Err(ending)),
            }
            if self.step == Step::Over {
                return Poll::Ready(Ok(()));
            }
            if ready!(self.outfit.ticks.poll_tick(cx)).is_err() {
                return Poll::Ready(Err(PeerEnding::Failed));
            }
            if !self.tick() {
                return Poll::Ready(self.outcome());
            }
        }
        cx.yield_now()
    }
}
