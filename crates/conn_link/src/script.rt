//! A list of steps that are taken one by one.

ghost use Rattle.std.specs.Prelude.{◌≡◌, ◌≢◌, ◌≤◌, List, drop, true, length, slice_get};
ghost use Rattle.futures.specs.Poll.{OnPending};
ghost use Rattle.futures.specs.Task.{IsArmed, Keeps};
ghost use Rattle.conn_link.specs.declared.step.PipeStep.{PipeStep as Step};
ghost use Rattle.conn_link.specs.Piping.{answer_by};

use crate::link::LinkFault;
use crate::step::PipeStep;
use futures::task::{Context, Poll};
use std::marker::Model;

/// The steps that aren't taken yet.
#[derive(Debug, Drop)]
pub(crate) struct Script {
    steps: Vec<PipeStep>,
    taken: usize,
}

impl Model for Script {
    ghost Value = { List Step };

    ghost view = { λ a. drop a.taken a.steps.items };

    ghost invariant = { λ a. a.taken ≤ length a.steps.items };
}

impl Script {
    pub(crate) fn new(steps: Vec<PipeStep>) -> Script
        ensures { result ≡ steps.items }
    {
        Script { steps, taken: 0 }
    }

    // Takes the next step: what a call answers by it that can move so many bytes.
    pub(crate) fn poll(
        &mut self,
        cx: &mut Context<'_>,
        able: usize,
    ) -> Poll<Result<usize, LinkFault>>
        ensures answer { result ≡ answer_by self.old able }
        ensures taken { self.new ≡ drop 1 self.old }
        ensures again { OnPending result ((cx.new.is_woken ≡ true) × IsArmed cx.new) }
        ensures calm { result ≢ Poll.Pending → cx.new ≡ cx.old }
        ensures kept { Keeps cx.old cx.new }
    {
        match self.next() {
            Some(PipeStep::Upto(most)) => Poll::Ready(Ok(most.min(able))),
            Some(PipeStep::Pending) => cx.yield_now(),
            Some(PipeStep::Fail) => Poll::Ready(Err(LinkFault)),
            None => Poll::Ready(Ok(able)),
        }
    }

    // The next step, none past the end of the list.
    fn next(&mut self) -> Option<PipeStep>
        ensures step { result ≡ slice_get self.old 0 }
        ensures taken { self.new ≡ drop 1 self.old }
    {
        let step = self.steps.get(self.taken).copied();
        if step.is_some() {
            self.taken += 1;
        }
        step
    }
}
