//! The handlers that are held still.

ghost use Rattle.std.specs.Prelude.{◌≡◌, ◌++◌, OnOk, IfOk, reverse};
ghost use Rattle.std.specs.Ordering.{nat_cmp};
ghost use Rattle.std.specs.BTreeMap as tree;
ghost use Rattle.held_order.specs.Orders.{arranged};
ghost use Rattle.board.specs.Handlers.{numbered, handlers_of, handlers_past};
ghost use Rattle.streams.specs.State.{handler_of};

use crate::board::Board;
use conn_log::Earlier;
use handlers::{Handler, Protocols};
use std::alloc::{AllocError, Global};
use std::collections::BTreeMap;
use streams::Stream;

/// Puts the handler that a stream holds behind the others, with the stream's number.
fn add<H: Handler>(
    held: &mut Vec<(u32, H)>,
    number: u32,
    stream: Stream<H>,
) -> Result<(), AllocError>
    ensures { OnOk result (held.new.items ≡ held.old.items ++ numbered number (handler_of stream.stage)) }
{
    match stream.into_handler() {
        Some(handler) => match held.push((number, handler)) {
            Ok(()) => Ok(()),
            Err(_) => Err(AllocError),
        },
        None => Ok(()),
    }
}

/// Adds those of earlier openings.
fn add_past<H: Handler>(held: &mut Vec<(u32, H)>, past: Vec<Earlier<H>>) -> Result<(), AllocError>
    ensures { OnOk result (held.new.items ≡ held.old.items ++ handlers_past past.items) }
{
    for earlier in past {
        let Earlier { number, stream } = earlier;
        add(held, number, stream)?;
    }
    Ok(())
}

/// Adds those of the streams in the table.
fn add_table<H: Handler>(
    held: &mut Vec<(u32, H)>,
    streams: BTreeMap<u32, Stream<H>>,
) -> Result<(), AllocError>
    ensures added { OnOk result (held.new.items ≡ held.old.items ++ handlers_of streams.entries) }
    ensures ordered { tree.IsOrdered nat_cmp streams }
{
    for (number, stream) in streams {
        add(held, number, stream)?;
    }
    Ok(())
}

impl<P: Protocols> Board<P> {
    /// The handlers that are held still, each with the number of its stream, in the order in which they were made.
    pub fn into_handlers(self, alloc: Global) -> Result<Vec<(u32, P::H)>, AllocError>
        ensures held { IfOk result (λ held. held.items ≡ arranged (reverse self.order)
            (handlers_past self.past.items ++ handlers_of self.streams.entries)) }
        ensures ordered { tree.IsOrdered nat_cmp self.streams }
    {
        let Self {
            streams,
            past,
            order,
            ..
        } = self;
        let mut held = Vec::new(alloc);
        add_past(&mut held, past)?;
        add_table(&mut held, streams)?;
        order.arrange(alloc, held)
    }
}
