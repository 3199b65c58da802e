//! Addresses.

ghost use Rattle.std.specs.Prelude.{◌≡◌, ◌⊎◌, ℕ, List, [], string_bytes, IfOk, IfErr, OnOk, Err};
ghost use Rattle.std.specs.List.{flat_map};
ghost use Rattle.multiaddr.specs.Part.{Part, Address, IsOpaque, spelling, SpellsAddress, AddressFault, RefusesAddress};
ghost use Rattle.multiaddr.specs.declared.fault.AddrFault.{AddrFault};
ghost use Rattle.multiaddr.specs.Given.{GivesSocket, GivesPeer};
ghost use Rattle.multiaddr.specs.Text.{ReadsParts, TextFault, RefusesText, PrintsParts, RefusesPrint};

use crate::fault::AddrFault;
use crate::print::print;
use crate::socket::{Ip, peer_of, socket_of};
use crate::text::parse;
use crate::wire::check;
use peer_ids::PeerId;
use std::alloc::Global;
use std::marker::Model;

/// An address. Contracts see its bytes.
#[derive(Debug, Drop)]
pub struct Multiaddr {
    bytes: Vec<u8>,
}

impl Model for Multiaddr {
    ghost use Rattle.std.specs.Prelude.{List, ℕ};
    ghost use Rattle.multiaddr.specs.Part.{Address, SpellsAddress};

    ghost Value = { List ℕ };

    ghost view = { λ a. a.bytes.items };

    ghost invariant = { λ a. (parts : Address) × SpellsAddress a.bytes.items parts };
}

/// The address whose bytes these are.
fn address_in(alloc: Global, bytes: &[u8]) -> Result<Multiaddr, AddrFault>
    ensures found { IfOk result (λ a. a ≡ bytes.now) }
    ensures spelt { OnOk result ((a : Address) × SpellsAddress bytes.now a) }
    ensures fault { IfErr result (RefusesAddress bytes.now) }
{
    check(bytes)?;
    let bytes = Vec::from_slice(alloc, bytes)?;
    Ok(Multiaddr { bytes })
}

/// The address that a text spells.
fn address_of(alloc: Global, text: &str) -> Result<Multiaddr, AddrFault>
    ensures found { IfOk result (λ a. (parts : List Part) × ReadsParts text.now parts
        × (a ≡ flat_map spelling parts)) }
    ensures fault { IfErr result (RefusesText text.now) }
{
    let bytes = parse(alloc, text)?;
    Ok(Multiaddr { bytes })
}

impl Multiaddr {
    /// The address whose bytes these are.
    pub fn read(alloc: Global, bytes: &[u8]) -> Result<Multiaddr, AddrFault>
        ensures found { IfOk result (λ a. a ≡ bytes.now) }
        ensures spelt { OnOk result ((a : Address) × SpellsAddress bytes.now a) }
        ensures fault { IfErr result (RefusesAddress bytes.now) }

        // An address is read, unless memory runs out, and each fault is answered.
        ensures only_address { (a : Address) → SpellsAddress bytes.now a
            → (result ≡ Ok bytes.now) ⊎ (result ≡ Err AddrFault.OutOfMemory) }
        ensures only_fault { (fault : AddrFault) → AddressFault bytes.now fault → result ≡ Err fault }
    {
        address_in(alloc, bytes)
    }

    /// The address that a text spells.
    pub fn parse(alloc: Global, text: &str) -> Result<Multiaddr, AddrFault>
        ensures found { IfOk result (λ a. (parts : List Part) × ReadsParts text.now parts
            × (a ≡ flat_map spelling parts)) }
        ensures fault { IfErr result (RefusesText text.now) }

        // An address is read, unless memory runs out, and each fault is answered.
        ensures only_address { (parts : List Part) → ReadsParts text.now parts
            → (result ≡ Ok (flat_map spelling parts)) ⊎ (result ≡ Err AddrFault.OutOfMemory) }
        ensures only_fault { (fault : AddrFault) → TextFault text.now fault → result ≡ Err fault }
    {
        address_of(alloc, text)
    }

    /// The bytes.
    pub fn bytes(&self) -> &[u8]
        ensures value { result.now ≡ self.now }
        ensures spelt { (a : Address) × SpellsAddress self.now a }
    {
        &self.bytes
    }

    /// The host and the port, where the parts are ip4 or ip6, then tcp, then nothing or one p2p part.
    pub fn socket(&self) -> Option<(Ip, u16)>
        ensures { (a : Address) → SpellsAddress self.now a → GivesSocket a result }
    {
        socket_of(&self.bytes)
    }

    /// The peer, where the last part is p2p.
    pub fn peer(&self) -> Option<PeerId>
        ensures { (a : Address) → SpellsAddress self.now a → GivesPeer a result }
    {
        peer_of(&self.bytes)
    }

    /// The text. An address with an opaque part has none. Memory is asked for only where there is a text.
    pub fn print(&self) -> Result<String, AddrFault>
        ensures found { IfOk result (λ text. (a : Address) × SpellsAddress self.now a × (a.opaque ≡ [])
            × PrintsParts (string_bytes text) a.parts) }
        ensures fault { IfErr result (RefusesPrint self.now) }
        ensures opaque { (a : Address) → SpellsAddress self.now a → IsOpaque a.opaque
            → result ≡ Err AddrFault.UnknownProtocol }
    {
        print(*self.bytes.allocator(), &self.bytes)
    }
}
