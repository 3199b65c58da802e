//! The place of a node: its socket, and perhaps the peer that is expected there.

ghost use Rattle.std.specs.Prelude.{◌≡◌, List, [], ◌∷◌, string_bytes, Err, IfOk, IfErr, MatchBool};
ghost use Rattle.std.specs.List.{flat_map};
ghost use Rattle.multiaddr.specs.Given.{host_part, port_part};
ghost use Rattle.multiaddr.specs.Part.{IsValue, Part, spelling};
ghost use Rattle.multiaddr.specs.Text.{TextFault};
ghost use Rattle.multiaddr.specs.declared.fault.AddrFault.{AddrFault};
ghost use Rattle.node_place.specs.Places.{BeginsWithName, IsHost, PrintsSocket, ReadsPlace, RefusesPlace};

use multiaddr::{AddrFault, Ip, Multiaddr};
use peer_ids::PeerId;
use std::alloc::{AllocError, Global};
use std::net::{IpAddr, Ipv4Addr, Ipv6Addr, SocketAddr};
use thiserror::Error;

/// The place of a node.
#[derive(Clone, Copy, Debug, PartialEq, Eq)]
pub struct Place {
    /// Where it listens.
    pub addr: SocketAddr,
    /// Who it is to be.
    pub peer: Option<PeerId>,
}

/// Why a text names no place of a node.
#[derive(Clone, Copy, Debug, PartialEq, Eq, Error)]
pub enum PlaceFault {
    /// It is no address.
    #[error("{0:?}")]
    Addr(AddrFault),
    /// The address begins with a name, which isn't looked up.
    #[error("NeedsLookup")]
    NeedsLookup,
    /// The address is none of a TCP socket.
    #[error("NoSocket")]
    NoSocket,
}

/// Whether an address begins with a name (multiaddr's protocols dns, dns4 and dns6: 53 to 55).
fn is_named(bytes: &[u8]) -> bool
    ensures { (parts : List Part) → bytes.now ≡ flat_map spelling parts
        → MatchBool result (BeginsWithName parts) (¬ BeginsWithName parts) }
{
    let Some(first) = bytes.first() else {
        return false;
    };
    53 <= *first && *first <= 55
}

/// The host of these octets.
fn host_of(ip: Ip) -> IpAddr
    ensures { IsHost ip result }
{
    match ip {
        Ip::V4(octets) => IpAddr::V4(Ipv4Addr::from_octets(octets)),
        Ip::V6(octets) => IpAddr::V6(Ipv6Addr::from_octets(octets)),
    }
}

/// The place that an address names: `/ip4` or `/ip6`, then `/tcp`, then nothing or `/p2p`.
pub fn place_of(alloc: Global, text: &str) -> Result<Place, PlaceFault>
    ensures found { IfOk result (ReadsPlace text.now) }
    ensures fault { IfErr result (RefusesPlace text.now) }
    ensures only_fault { (fault : AddrFault) → TextFault text.now fault → result ≡ Err (PlaceFault.Addr fault) }
{
    let address = match Multiaddr::parse(alloc, text) {
        Ok(address) => address,
        Err(fault) => return Err(PlaceFault::Addr(fault)),
    };
    match address.socket() {
        Some((ip, port)) => Ok(Place {
            addr: SocketAddr::new(host_of(ip), port),
            peer: address.peer(),
        }),
        None if is_named(address.bytes()) => Err(PlaceFault::NeedsLookup),
        None => Err(PlaceFault::NoSocket),
    }
}

/// The octets of a host.
fn ip_of(host: IpAddr) -> Ip
    ensures same { IsHost result host }
    ensures value { IsValue (host_part result).protocol (host_part result).value }
{
    match host {
        IpAddr::V4(ip) => Ip::V4(ip.octets()),
        IpAddr::V6(ip) => Ip::V6(ip.octets()),
    }
}

/// The bytes of a socket's address (multiaddr's protocols ip4, ip6 and tcp: 4, 41 and 6).
fn addr_bytes(alloc: Global, host: Ip, port: u16) -> Result<Vec<u8>, AllocError>
    ensures { IfOk result (λ bytes. bytes.items ≡ flat_map spelling (host_part host ∷ port_part port ∷ [])) }
{
    let mut bytes = Vec::new(alloc);
    match host {
        Ip::V4(octets) => {
            bytes.push(4)?;
            bytes.extend_from_slice(&octets)?;
        }
        Ip::V6(octets) => {
            bytes.push(41)?;
            bytes.extend_from_slice(&octets)?;
        }
    }
    bytes.push(6)?;
    bytes.extend_from_slice(&port.to_be_bytes())?;
    Ok(bytes)
}

/// The text of a socket's address, without a peer. It answers a text or want of memory, nothing else.
pub fn addr_text(alloc: Global, addr: SocketAddr) -> Result<String, AddrFault>
    ensures found { IfOk result (λ text. PrintsSocket (string_bytes text) addr) }
    ensures memory { IfErr result (λ fault. fault ≡ AddrFault.OutOfMemory) }
{
    match addr_bytes(alloc, ip_of(addr.ip()), addr.port()) {
        Ok(bytes) => Multiaddr::read(alloc, &bytes)?.print(),
        Err(AllocError) => Err(AddrFault::OutOfMemory),
    }
}
