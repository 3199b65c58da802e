//! A connection over a link.

ghost use Rattle.std.specs.Prelude.{◌≡◌, ◌-◌, ◌<◌, ◌^◌, true, false, [], length};
ghost use Rattle.conn_future.specs.Stages.{is_live};

use crate::stage::Stage;
use bytes::BytesMut;
use conn_core::ConnCore;
use conn_link::Link;
use conn_log::ConnEvent;
use handlers::{Handler, Protocols};
use std::alloc::Global;
use std::collections::VecDeque;

/// A connection over a link, polled by hand.
pub struct Conn<L: Link, P: Protocols> {
    pub(crate) link: L,
    pub(crate) core: ConnCore<P>,
    /// The output of the core that the link hasn't taken yet.
    pub(crate) unsent: BytesMut,
    /// The events of the core that were not given yet, in order.
    pub(crate) held: VecDeque<ConnEvent<P::H>>,
    pub(crate) stage: Stage,
    /// What the next read fills.
    pub(crate) buffer: Vec<u8>,
    pub(crate) alloc: Global,
    // A call of the link that fails is counted.
    ghost can_fail: { is_live stage ≡ true → L.failed link < 2 ^ 64 - 1 },
    // A read always has this much room, so that none but the end moves nothing; and no more is kept of what came.
    ghost has_room: { length buffer.items ≡ 8192 },
    // Where it makes no call more, the output that was left is dropped.
    ghost none_left: { is_live stage ≡ false → unsent.items ≡ [] },
}

// By hand, so that the proof of who lets go of it is that of a call, and not of all that it holds.
impl<L: Link, P: Protocols> Drop for Conn<L, P> {
    fn drop(self) {
        let Self {
            link: _link,
            core: _core,
            unsent: _unsent,
            held: _held,
            stage: _,
            buffer: _buffer,
            alloc: _,
        } = self;
    }
}
