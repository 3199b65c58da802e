//! What serves a stream of a node.

ghost use Rattle.std.specs.Prelude.{◌≡◌, ◌↔◌, ◌≤◌, length, Some, IsOk, IsErr, IsSome, false, true};
ghost use Rattle.std.specs.Prelude.{IfOk, IfErr, OnOk, OnErr};
ghost use Rattle.handlers.specs.Calls.{Take, Give, End, ToTake, ToGive, ToEnd};
ghost use Rattle.node_protocols.specs.Handlers.{NodeStep, NodeFails, Stops, is_over, has_failed};
ghost use Rattle.node_protocols.specs.Handlers.{is_closed, is_finished, message_of};

use handlers::{Handler, HandlerFault};
use identify_h::{Identify, IdentifyIn, IdentifyOut};
use ping_h::{PingEcho, PingOut};

/// What serves a stream of a node (libp2p identify 1.0.0 and ping 1.0.0): each call is that of the handler of its kind.
/// The number of a fault is that of [`identify_h::IdentifyFault`] where one reads or sends, and of
/// [`ping_h::PingFault`] where one pings or echoes. After a fault it is of the same kind, and has failed.
#[derive(Drop)]
pub enum NodeHandler {
    /// Reads what the peer says of itself: identify on a stream that this end opened, the push on one of the peer's.
    Reads(IdentifyIn),
    /// Sends what the node says of itself: identify on a stream of the peer's, the push on one that this end opened.
    Sends(IdentifyOut),
    /// Sends 32 bytes and awaits them back.
    Pings(PingOut),
    /// Gives each round of 32 bytes back.
    Echoes(PingEcho),
}

impl NodeHandler {
    /// What a finished reader has read. Any other handler is handed back as it was. Takes no memory.
    pub fn into_message(self) -> Result<Identify, NodeHandler>
        ensures message { IfOk result (λ message. message_of self ≡ Some message) }
        ensures back { IfErr result (λ handler. handler ≡ self) }
        ensures when { IsOk result ↔ IsSome (message_of self) }
    {
        match self {
            NodeHandler::Reads(reader) => match reader.into_message() {
                Ok(message) => Ok(message),
                Err(reader) => Err(NodeHandler::Reads(reader)),
            },
            handler => Err(handler),
        }
    }
}

impl Handler for NodeHandler {
    ghost steps = { NodeStep };

    ghost fails = { NodeFails };

    ghost is_closed = { is_closed };

    ghost is_finished = { is_finished };

    fn take(&mut self, bytes: &[u8]) -> Result<(), HandlerFault>
        ensures step { OnOk result (NodeStep self.old (Take bytes.now) self.new) }
        ensures fault { IfErr result (λ fault. NodeFails self.old (ToTake bytes.now) fault.number) }
        ensures over { is_over self.old ≡ true → IsErr result × (self.new ≡ self.old) }
        ensures fails { OnErr result (is_over self.old ≡ false → Stops self.old self.new) }
    {
        match self {
            NodeHandler::Reads(reader) => reader.take(bytes),
            NodeHandler::Sends(sender) => sender.take(bytes),
            NodeHandler::Pings(ping) => ping.take(bytes),
            NodeHandler::Echoes(echo) => echo.take(bytes),
        }
    }

    fn end(&mut self) -> Result<(), HandlerFault>
        ensures step { OnOk result (NodeStep self.old End self.new) }
        ensures fault { IfErr result (λ fault. NodeFails self.old ToEnd fault.number) }
        ensures over { is_over self.old ≡ true → IsErr result × (self.new ≡ self.old) }
        ensures fails { OnErr result (is_over self.old ≡ false → Stops self.old self.new) }
    {
        match self {
            NodeHandler::Reads(reader) => reader.end(),
            NodeHandler::Sends(sender) => sender.end(),
            NodeHandler::Pings(ping) => ping.end(),
            NodeHandler::Echoes(echo) => echo.end(),
        }
    }

    fn give(&mut self, room: usize) -> Result<Vec<u8>, HandlerFault>
        ensures room { IfOk result (λ bytes. length bytes.items ≤ room) }
        ensures step { IfOk result (λ bytes. NodeStep self.old (Give room bytes.items) self.new) }
        ensures fault { IfErr result (λ fault. NodeFails self.old (ToGive room) fault.number) }
        ensures over { has_failed self.old ≡ true → IsErr result × (self.new ≡ self.old) }
        ensures fails { OnErr result (has_failed self.old ≡ false → Stops self.old self.new) }
    {
        match self {
            NodeHandler::Reads(reader) => reader.give(room),
            NodeHandler::Sends(sender) => sender.give(room),
            NodeHandler::Pings(ping) => ping.give(room),
            NodeHandler::Echoes(echo) => echo.give(room),
        }
    }

    fn closed(&self) -> bool {
        match self {
            NodeHandler::Reads(reader) => reader.closed(),
            NodeHandler::Sends(sender) => sender.closed(),
            NodeHandler::Pings(ping) => ping.closed(),
            NodeHandler::Echoes(echo) => echo.closed(),
        }
    }

    fn finished(&self) -> bool {
        match self {
            NodeHandler::Reads(reader) => reader.finished(),
            NodeHandler::Sends(sender) => sender.finished(),
            NodeHandler::Pings(ping) => ping.finished(),
            NodeHandler::Echoes(echo) => echo.finished(),
        }
    }
}
