//! Laws of the handlers and the protocols of a node.

ghost use Rattle.std.specs.Prelude.{◌≡◌, ◌↔◌, ℕ, List, Bool, true, IfSome};
ghost use Rattle.handlers.specs.Calls.{HandlerCall, Asked, Arises, WasHanded};
ghost use Rattle.identify_h.specs.Reading.{Reader};
ghost use Rattle.identify_h.specs.Sending.{Sending};
ghost use Rattle.identify_h.specs.Streams.{Reads as SaysAll};
ghost use Rattle.ping_h.specs.Rounds.{Round};
ghost use Rattle.ping_h.specs.Echoes.{Echo};
ghost use Rattle.node_protocols.specs.declared.handler.NodeHandler.{NodeHandler};
ghost use Rattle.node_protocols.specs.declared.handler.NodeHandler.TheVariants.{Reads, Sends, Pings, Echoes};
ghost use Rattle.node_protocols.specs.contracts.payloads.FixedPayload.{the_view};
ghost use Rattle.node_protocols.specs.declared.payloads.FixedPayload.TheInside.{Inside as Fields};
ghost use Rattle.node_protocols.specs.Handlers.{message_of};
ghost use Rattle.node_protocols.specs.Makes.{Node, Hears, MakesInbound, MakesOutbound};
ghost use Rattle.node_protocols.specs.Makes.{LeadsInbound, LeadsOutbound};
ghost use Rattle.node_protocols.specs.Own.{protocol_names};

use crate::handler::NodeHandler;
use crate::names::{IDENTIFY, PING, PUSH};
use crate::payloads::{FixedPayload, Payloads};
use crate::protocols::NodeProtocols;
use handlers::{Handler, Protocols};
use identify_h::{IdentifyIn, IdentifyOut};
use ping_h::{PingEcho, PingOut};

/// What comes of a handler by its calls is of the same kind, and comes of it as that kind's own handler does: what is
/// proved of those over whole lists of calls holds of a node's.
pub fn kinds_stay()
    ensures reads { (made : Reader) (calls : List HandlerCall) (value : NodeHandler)
        → Arises ⟦<NodeHandler as Handler>⟧.steps (Reads made) calls value
        → (reader : Reader) × (value ≡ Reads reader) × Arises ⟦<IdentifyIn as Handler>⟧.steps made calls reader }
    ensures sends { (made : Sending) (calls : List HandlerCall) (value : NodeHandler)
        → Arises ⟦<NodeHandler as Handler>⟧.steps (Sends made) calls value
        → (out : Sending) × (value ≡ Sends out) × Arises ⟦<IdentifyOut as Handler>⟧.steps made calls out }
    ensures pings { (made : Round) (calls : List HandlerCall) (value : NodeHandler)
        → Arises ⟦<NodeHandler as Handler>⟧.steps (Pings made) calls value
        → (out : Round) × (value ≡ Pings out) × Arises ⟦<PingOut as Handler>⟧.steps made calls out }
    ensures echoes { (made : Echo) (calls : List HandlerCall) (value : NodeHandler)
        → Arises ⟦<NodeHandler as Handler>⟧.steps (Echoes made) calls value
        → (echo : Echo) × (value ≡ Echoes echo) × Arises ⟦<PingEcho as Handler>⟧.steps made calls echo }
{}

/// It is closed where that one is.
pub fn closes_as_its_kind()
    ensures reads { (reader : Reader) → ⟦<NodeHandler as Handler>⟧.is_closed (Reads reader)
        ≡ ⟦<IdentifyIn as Handler>⟧.is_closed reader }
    ensures sends { (out : Sending) → ⟦<NodeHandler as Handler>⟧.is_closed (Sends out)
        ≡ ⟦<IdentifyOut as Handler>⟧.is_closed out }
    ensures pings { (out : Round) → ⟦<NodeHandler as Handler>⟧.is_closed (Pings out)
        ≡ ⟦<PingOut as Handler>⟧.is_closed out }
    ensures echoes { (echo : Echo) → ⟦<NodeHandler as Handler>⟧.is_closed (Echoes echo)
        ≡ ⟦<PingEcho as Handler>⟧.is_closed echo }
{}

/// And it is finished where that one is.
pub fn finishes_as_its_kind()
    ensures reads { (reader : Reader) → ⟦<NodeHandler as Handler>⟧.is_finished (Reads reader)
        ≡ ⟦<IdentifyIn as Handler>⟧.is_finished reader }
    ensures sends { (out : Sending) → ⟦<NodeHandler as Handler>⟧.is_finished (Sends out)
        ≡ ⟦<IdentifyOut as Handler>⟧.is_finished out }
    ensures pings { (out : Round) → ⟦<NodeHandler as Handler>⟧.is_finished (Pings out)
        ≡ ⟦<PingOut as Handler>⟧.is_finished out }
    ensures echoes { (echo : Echo) → ⟦<NodeHandler as Handler>⟧.is_finished (Echoes echo)
        ≡ ⟦<PingEcho as Handler>⟧.is_finished echo }
{}

/// Each call of it is answered where that one answers it, and leads to what that one becomes.
pub fn answers_as_its_kind()
    ensures reads { (old new : Reader) (call : HandlerCall)
        → ⟦<NodeHandler as Handler>⟧.steps (Reads old) call (Reads new)
        ↔ ⟦<IdentifyIn as Handler>⟧.steps old call new }
    ensures sends { (old new : Sending) (call : HandlerCall)
        → ⟦<NodeHandler as Handler>⟧.steps (Sends old) call (Sends new)
        ↔ ⟦<IdentifyOut as Handler>⟧.steps old call new }
    ensures pings { (old new : Round) (call : HandlerCall)
        → ⟦<NodeHandler as Handler>⟧.steps (Pings old) call (Pings new)
        ↔ ⟦<PingOut as Handler>⟧.steps old call new }
    ensures echoes { (old new : Echo) (call : HandlerCall)
        → ⟦<NodeHandler as Handler>⟧.steps (Echoes old) call (Echoes new)
        ↔ ⟦<PingEcho as Handler>⟧.steps old call new }
{}

/// And each is refused where that one refuses it, by the same number.
pub fn fails_as_its_kind()
    ensures reads { (reader : Reader) (asked : Asked) (n : ℕ)
        → ⟦<NodeHandler as Handler>⟧.fails (Reads reader) asked n
        ↔ ⟦<IdentifyIn as Handler>⟧.fails reader asked n }
    ensures sends { (out : Sending) (asked : Asked) (n : ℕ)
        → ⟦<NodeHandler as Handler>⟧.fails (Sends out) asked n
        ↔ ⟦<IdentifyOut as Handler>⟧.fails out asked n }
    ensures pings { (out : Round) (asked : Asked) (n : ℕ)
        → ⟦<NodeHandler as Handler>⟧.fails (Pings out) asked n
        ↔ ⟦<PingOut as Handler>⟧.fails out asked n }
    ensures echoes { (echo : Echo) (asked : Asked) (n : ℕ)
        → ⟦<NodeHandler as Handler>⟧.fails (Echoes echo) asked n
        ↔ ⟦<PingEcho as Handler>⟧.fails echo asked n }
{}

/// The message of a handler that was made to read is what its whole stream says.
pub fn message_is_what_came()
    ensures { (peer bytes : List ℕ) (ended : Bool) (made value : NodeHandler) → Hears peer made
        → WasHanded ⟦<NodeHandler as Handler>⟧.steps made bytes ended value
        → IfSome (message_of value) (SaysAll peer bytes) }
{}

/// What a node's protocols are to whoever knows them as protocols alone: their names by their indexes, that ping alone
/// is eager, and which handlers they make.
pub fn protocols_of_a_node<R: Payloads>()
    ensures indexes { (IDENTIFY ≡ 0) × (PUSH ≡ 1) × (PING ≡ 2) }
    ensures names { (node : Node R) → ⟦<NodeProtocols<R> as Protocols>⟧.listed node ≡ protocol_names }
    ensures eager { (node : Node R) (index : ℕ)
        → (⟦<NodeProtocols<R> as Protocols>⟧.is_eager node index ≡ true) ↔ (index ≡ 2) }
    ensures inbound { (node : Node R) (index : ℕ) (peer : List ℕ) (handler : NodeHandler)
        → ⟦<NodeProtocols<R> as Protocols>⟧.makes_inbound node index peer handler
        ↔ MakesInbound node.own index peer handler }
    ensures outbound { (node : Node R) (index : ℕ) (peer : List ℕ) (handler : NodeHandler)
        → ⟦<NodeProtocols<R> as Protocols>⟧.makes_outbound node index peer handler
        ↔ MakesOutbound node.own (R.gives node.payloads) index peer handler }
    ensures inbound_once { (node next : Node R) (index : ℕ) (peer : List ℕ) (handler : NodeHandler)
        → ⟦<NodeProtocols<R> as Protocols>⟧.leads_inbound node index peer handler next
        ↔ LeadsInbound node index peer handler next }
    ensures outbound_once { (node next : Node R) (index : ℕ) (peer : List ℕ) (handler : NodeHandler)
        → ⟦<NodeProtocols<R> as Protocols>⟧.leads_outbound node index peer handler next
        ↔ LeadsOutbound R.steps node index peer handler next }
{}

/// What contracts see of a fixed payload is what its field holds.
pub fn payload_is_public()
    ensures { (fixed : Fields) → the_view fixed ≡ record { payload = fixed.payload } }
{}

/// A fixed payload is given at each call, and no other bytes are.
pub fn payload_is_fixed()
    ensures gives { (fixed : FixedPayload) (bytes : List ℕ)
        → ⟦<FixedPayload as Payloads>⟧.gives fixed bytes ↔ (bytes ≡ fixed.payload) }
    ensures steps { (fixed next : FixedPayload) (bytes : List ℕ)
        → ⟦<FixedPayload as Payloads>⟧.steps fixed bytes next ↔ ((bytes ≡ fixed.payload) × (next ≡ fixed)) }
{}
