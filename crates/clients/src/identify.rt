//! What one end says of itself, the other reads.

ghost use Rattle.std.specs.Prelude.{◌≡◌, ◌⊎◌, Ok, Err};
ghost use Rattle.identify_h.specs.Messages.{HasKeyOf};

use identify_h::laws::written_is_read;
use identify_h::{Identify, IdentifyFault};
use peer_ids::PeerId;
use std::alloc::Global;

/// An identify message that is written is read back as it was, unless memory is refused. Its key, if it has one, must be
/// the key of the peer.
pub fn read_back(alloc: Global, message: &Identify, peer: PeerId) -> Result<Identify, IdentifyFault>
    requires key { HasKeyOf peer message.now.key }
    ensures { (result ≡ Ok message.now) ⊎ (result ≡ Err IdentifyFault.OutOfMemory) }
{
    written_is_read();
    match message.write() {
        Ok(body) => Identify::read(alloc, &body, peer),
        Err(_) => Err(IdentifyFault::OutOfMemory),
    }
}
