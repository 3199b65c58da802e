//! A whole upgrade, from the first byte on.

ghost use Rattle.std.specs.Prelude.{◌≢◌, ℕ, List, Ok, Err, IfOk, IfErr};
ghost use Rattle.std.specs.List.{flat_map};
ghost use Rattle.upgrade.specs.Upgrades.{ComesTo};

use crate::fault::UpgradeFault;
use crate::role::ConnRole;
use crate::upgrade::{Progress, Upgrade};
use peer_ids::PublicKey;
use plaintext_x::Proven;
use std::alloc::Global;

/// What an upgrade came to.
#[derive(Debug, Drop)]
pub struct Upgraded {
    /// The other end, or nothing where more bytes are needed.
    pub proven: Option<Proven>,
    /// All that this end wrote.
    pub output: Vec<u8>,
}

/// What an end of this role, with this key, comes to by all that the other end sends, in any pieces.
pub fn bring_up(
    alloc: Global,
    role: ConnRole,
    key: PublicKey,
    pieces: &[&[u8]],
) -> Result<Upgraded, UpgradeFault>
    ensures outcome { IfOk result (λ upgraded. (first : List ℕ)
        × ComesTo role key (flat_map (λ piece. piece.now) pieces.now) first (Ok upgraded.proven)
        upgraded.output.items) }
    ensures fault { IfErr result (λ fault. fault ≢ UpgradeFault.OutOfMemory → (output : List ℕ)
        × ComesTo role key (flat_map (λ piece. piece.now) pieces.now) (flat_map (λ piece. piece.now) pieces.now)
        (Err fault) output) }
{
    let mut upgrade = Upgrade::new(alloc, role, key)?;
    for piece in pieces {
        match upgrade.feed(piece)? {
            Progress::Going => {}
            Progress::Up { proven, .. } => {
                return Ok(Upgraded {
                    proven: Some(proven),
                    output: upgrade.take_output(),
                });
            }
        }
    }
    Ok(Upgraded {
        proven: None,
        output: upgrade.take_output(),
    })
}
