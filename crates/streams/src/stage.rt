//! Where a stream is.

ghost use Rattle.std.specs.Prelude.{◌≡◌, Some, true, false, Ok, IfOk, IfErr, OnOk};
ghost use Rattle.handlers.specs.Calls.{ToGive};
ghost use Rattle.streams.specs.State.{is_talking, awaits_handler, handler_of, has_closed, has_finished, was_handed_out};
ghost use Rattle.streams.specs.State.{is_over, holds_handler, kind_of};
ghost use Rattle.streams.specs.Giving.{Gives, StageGives};
ghost use Rattle.streams.specs.InTalk.{stage_by};

use crate::heard::Heard;
use handlers::{Handler, HandlerFault};
use std::alloc::Global;
use talks::Talk;

/// Where a stream is.
#[derive(Drop)]
pub(crate) enum Stage<H> {
    /// Nothing is decided. The handler of an eager protocol is there already.
    Talking(Talk, Option<H>),
    /// Both ends agree on the protocol of this index, and its handler is awaited.
    Agreed(usize),
    /// The handler of its protocol serves it.
    Serving(H),
    /// Its handler was handed out.
    Done,
    /// It was refused, or goes on no more.
    Over,
}

/// Asks a handler for bytes, unless it is closed.
fn ask_handler<H: Handler>(
    alloc: Global,
    handler: &mut H,
    room: usize,
) -> Result<Vec<u8>, HandlerFault>
    ensures gives { IfOk result (λ bytes. Gives H.steps H.is_closed handler.old room handler.new bytes.items) }
    ensures fault { IfErr result (λ fault. (H.is_closed handler.old ≡ false)
        × H.fails handler.old (ToGive room) fault.number) }
{
    if handler.closed() {
        return Ok(Vec::new(alloc));
    }
    handler.give(room)
}

impl<H: Handler> Stage<H> {
    pub(crate) fn talks(&self) -> bool
        ensures { result ≡ is_talking self.now }
    {
        match self {
            Stage::Talking(_, _) => true,
            Stage::Agreed(_) | Stage::Serving(_) | Stage::Done | Stage::Over => false,
        }
    }

    pub(crate) fn awaits(&self) -> bool
        ensures { result ≡ awaits_handler self.now }
    {
        match self {
            Stage::Agreed(_) => true,
            Stage::Talking(_, _) | Stage::Serving(_) | Stage::Done | Stage::Over => false,
        }
    }

    pub(crate) fn closed(&self) -> bool
        ensures { result ≡ has_closed H.is_closed self.now }
    {
        match self {
            Stage::Talking(_, Some(handler)) => handler.closed(),
            Stage::Serving(handler) => handler.closed(),
            Stage::Talking(_, None) | Stage::Agreed(_) => false,
            Stage::Done | Stage::Over => true,
        }
    }

    pub(crate) fn finished(&self) -> bool
        ensures { result ≡ has_finished H.is_finished self.now }
    {
        match self {
            Stage::Serving(handler) => handler.finished(),
            Stage::Talking(_, _) | Stage::Agreed(_) | Stage::Done | Stage::Over => false,
        }
    }

    pub(crate) fn was_handed_out(&self) -> bool
        ensures { result ≡ was_handed_out self.now }
    {
        matches!(self, Stage::Done)
    }

    pub(crate) fn is_over(&self) -> bool
        ensures { result ≡ is_over self.now }
    {
        matches!(self, Stage::Over)
    }

    pub(crate) fn holds_handler(&self) -> bool
        ensures { result ≡ holds_handler self.now }
    {
        match self {
            Stage::Talking(_, Some(_)) | Stage::Serving(_) => true,
            Stage::Talking(_, None) | Stage::Agreed(_) => false,
            Stage::Done | Stage::Over => false,
        }
    }

    /// The handler that it holds.
    pub(crate) fn into_handler(self) -> Option<H>
        ensures { result ≡ handler_of self }
    {
        match self {
            Stage::Talking(_, handler) => handler,
            Stage::Serving(handler) => Some(handler),
            Stage::Agreed(_) | Stage::Done | Stage::Over => None,
        }
    }

    /// Asks the handler that it holds for bytes.
    pub(crate) fn ask(&mut self, alloc: Global, room: usize) -> Result<Vec<u8>, HandlerFault>
        ensures gives { IfOk result (λ bytes. StageGives H.steps H.is_closed self.old room self.new bytes.items) }
        ensures kind { OnOk result (kind_of self.new ≡ kind_of self.old) }
        ensures fault { IfErr result (λ fault. (handler : H) × (handler_of self.old ≡ Some handler)
            × (H.is_closed handler ≡ false) × H.fails handler (ToGive room) fault.number) }
    {
        match self {
            Stage::Talking(_, early) => match early {
                Some(handler) => ask_handler(alloc, handler, room),
                None => Ok(Vec::new(alloc)),
            },
            Stage::Serving(handler) => ask_handler(alloc, handler, room),
            Stage::Agreed(_) | Stage::Done | Stage::Over => Ok(Vec::new(alloc)),
        }
    }
}

/// Where a stream is, once its talk told this.
pub(crate) fn stage_behind<H: Handler>(heard: Heard, talk: Talk, handler: Option<H>) -> Stage<H>
    ensures { result ≡ stage_by heard talk handler }
{
    match heard {
        Heard::Going => Stage::Talking(talk, handler),
        Heard::Agreed { index, .. } => match handler {
            None => Stage::Agreed(index),
            Some(handler) => Stage::Serving(handler),
        },
        Heard::Refused => Stage::Over,
    }
}
