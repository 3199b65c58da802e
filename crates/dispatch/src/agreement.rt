//! The talk of a stream, and the handler that is made behind it.

ghost use Rattle.std.specs.Prelude.{◌≡◌, ◌≢◌, ℕ, ◌<◌, ◌≤◌, true, false, List, ◌++◌, length, Ok, Err};
ghost use Rattle.std.specs.Prelude.{IfOk, IfErr, OnOk, OnErr};
ghost use Rattle.streams.specs.declared.stage.Stage.TheVariants.{Serving, Over};
ghost use Rattle.streams.specs.Streams.{Past};
ghost use Rattle.streams.specs.Stops.{not_now};
ghost use Rattle.streams.specs.State.{Stands, is_talking, awaits_handler};
ghost use Rattle.dispatch.specs.Dispatch.{IsKnown, Negotiates, MakingRunsOut, makes_once};

use crate::direction::Direction;
use handlers::Protocols;
use ms_select::SelectFault;
use peer_ids::PeerId;
use streams::{Cause, Heard, Stop, Stream};

/// Makes the handler of a stream whose ends agree on the protocol of this index.
fn make<P: Protocols>(
    protocols: &mut P,
    direction: Direction,
    index: usize,
    peer: PeerId,
) -> Result<P::H, Stop>
    ensures names { P.listed protocols.new ≡ P.listed protocols.old }
    ensures eager { P.is_eager protocols.new ≡ P.is_eager protocols.old }
    ensures made { IfOk result (makes_once P.makes_inbound P.makes_outbound P.leads_inbound P.leads_outbound direction
        peer protocols.old protocols.new index) }
    ensures refused { index < length (P.listed protocols.old) → IfErr result (λ stop. stop ≡ Stop.OutOfMemory) }
    ensures kept { OnErr result (protocols.new ≡ protocols.old) }
{
    if index >= protocols.names().len() {
        return Err(Stop::Broken(Cause::Select(SelectFault::Failed)));
    }
    let handler = match direction {
        Direction::Inbound => protocols.inbound(index, peer)?,
        Direction::Outbound => protocols.outbound(index, peer)?,
    };
    Ok(handler)
}

/// Hands the handler in, where it is awaited.
fn serve<P: Protocols>(
    protocols: &mut P,
    direction: Direction,
    peer: PeerId,
    stream: &mut Stream<P::H>,
    index: usize,
) -> Result<(), Stop>
    ensures names { P.listed protocols.new ≡ P.listed protocols.old }
    ensures eager { P.is_eager protocols.new ≡ P.is_eager protocols.old }
    ensures served { awaits_handler stream.old.stage ≡ true → OnOk result ((handler : P.H)
        × (stream.new ≡ record stream.old { stage = Serving handler })
        × makes_once P.makes_inbound P.makes_outbound P.leads_inbound P.leads_outbound direction peer protocols.old
        protocols.new index handler
        × ((so_far : Past P.H) → Stands P.H.steps stream.old so_far
        → Stands P.H.steps stream.new (record so_far { made = Some handler }))) }
    ensures not_awaited { awaits_handler stream.old.stage ≡ false → (result ≡ Ok tt) × (stream.new ≡ stream.old)
        × (protocols.new ≡ protocols.old) }
    ensures refused { index < length (P.listed protocols.old) → IfErr result (λ stop. (stop ≡ Stop.OutOfMemory)
        × (awaits_handler stream.old.stage ≡ true)) }
    ensures kept { OnErr result (protocols.new ≡ protocols.old) }
    ensures waits { stream.new.waiting ≡ stream.old.waiting }
{
    if !stream.awaits_handler() {
        return Ok(());
    }
    let handler = make(protocols, direction, index, peer)?;
    stream.serve(handler);
    Ok(())
}

/// The talk of a stream takes data. Where both ends agree by it, the handler of that protocol is made, unless an eager
/// one is there; what stands behind the talk's bytes is the handler's.
///
/// Behind [`Heard::Refused`] the stream is over, and behind a fault of its talk.
pub fn negotiate<P: Protocols>(
    protocols: &mut P,
    direction: Direction,
    peer: PeerId,
    stream: &mut Stream<P::H>,
    bytes: &[u8],
) -> Result<Heard, Stop>
    ensures names { P.listed protocols.new ≡ P.listed protocols.old }
    ensures eager { P.is_eager protocols.new ≡ P.is_eager protocols.old }
    ensures within { (index : ℕ) (used : ℕ) → result ≡ Ok (Heard.Agreed index used) → used ≤ length bytes.now }
    // The stream began with the names of the connection.
    ensures negotiates { (so_far : Past P.H) → Stands P.H.steps stream.old so_far → is_talking stream.old.stage ≡ true
        → IsKnown (P.listed protocols.old) direction so_far.side → result ≢ Err Stop.OutOfMemory
        → Negotiates P.H.steps
        (makes_once P.makes_inbound P.makes_outbound P.leads_inbound P.leads_outbound direction peer protocols.old
        protocols.new) (protocols.new ≡ protocols.old) so_far bytes.now result stream.new }
    ensures memory { (so_far : Past P.H) → Stands P.H.steps stream.old so_far → is_talking stream.old.stage ≡ true
        → IsKnown (P.listed protocols.old) direction so_far.side → result ≡ Err Stop.OutOfMemory
        → MakingRunsOut P.H.steps so_far stream.old bytes.now stream.new.waiting }
    // No handler was made then, or was handed anything.
    ensures kept { OnErr result (protocols.new ≡ protocols.old) }
    ensures out_of_turn { is_talking stream.old.stage ≡ false
        → (result ≡ Err not_now) × (stream.new ≡ stream.old) × (protocols.new ≡ protocols.old) }
    ensures over { is_talking stream.old.stage ≡ true → result ≡ Ok Heard.Refused → stream.new.stage ≡ Over }
    // Whatever it comes to, what waited waits, and perhaps more behind it.
    ensures waits { (more : List ℕ) × (stream.new.waiting ≡ stream.old.waiting ++ more) }
{
    let heard = stream.hear(bytes)?;
    if let Heard::Agreed { index, .. } = heard {
        serve(protocols, direction, peer, stream, index)?;
    }
    Ok(heard)
}
