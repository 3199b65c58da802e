//! The socket and the peer that an address names.

ghost use Rattle.std.specs.Prelude.{◌≡◌, ◌≢◌, ◌↔◌, ℕ, List, ◌++◌, IsTrue, IfSome, IfNone};
ghost use Rattle.multiaddr.specs.declared.protocol.Protocol.{Protocol};
ghost use Rattle.multiaddr.specs.Part.{part, Address, IsValue, SpellsAddress, spelling};
ghost use Rattle.multiaddr.specs.Given.{host_part, port_part, peer_in, EndsSocket, GivesPeer, GivesSocket};
ghost use Rattle.multiaddr.specs.declared.socket.Ip.{Ip};

use crate::protocol::Protocol;
use crate::wire::part_at;
use peer_ids::PeerId;

/// The IP address of a host, as its octets in network order.
#[derive(Clone, Copy, Debug, PartialEq, Eq, Hash)]
pub enum Ip {
    /// An IPv4 address.
    V4([u8; 4]),
    /// An IPv6 address.
    V6([u8; 16]),
}

/// The part at the front, where its protocol is in the table, and what follows it.
fn known_part(bytes: &[u8]) -> Option<(Protocol, &[u8], &[u8])>
    ensures found { IfSome result (λ read. IsValue read.0 read.1.now
        × (bytes.now ≡ spelling (part read.0 read.1.now) ++ read.2.now)) }
    ensures none { IfNone result ((p : Protocol) (value rest : List ℕ) → IsValue p value
        → bytes.now ≢ spelling (part p value) ++ rest) }
{
    match part_at(bytes) {
        Ok(read) => read,
        Err(_) => None,
    }
}

/// The peer that a part names.
fn named(protocol: Protocol, value: &[u8]) -> Option<PeerId>
    requires { IsValue protocol value.now }
    ensures { result ≡ peer_in protocol value.now }
{
    match protocol {
        Protocol::P2p => PeerId::from_bytes(value).ok(),
        _ => None,
    }
}

/// The peer that the last part of an address names.
pub(crate) fn peer_of(bytes: &[u8]) -> Option<PeerId>
    requires { (a : Address) × SpellsAddress bytes.now a }
    ensures { (a : Address) → SpellsAddress bytes.now a → GivesPeer a result }
{
    let mut rest = bytes;
    let mut peer = None;
    while !rest.is_empty() {
        let Some((protocol, value, tail)) = known_part(rest) else {
            return None;
        };
        peer = named(protocol, value);
        rest = tail;
    }
    peer
}

/// The host that a part names.
fn host(protocol: Protocol, value: &[u8]) -> Option<Ip>
    requires { IsValue protocol value.now }
    ensures found { IfSome result (λ ip. part protocol value.now ≡ host_part ip) }
    ensures none { IfNone result ((ip : Ip) → part protocol value.now ≢ host_part ip) }
{
    match protocol {
        Protocol::Ip4 => {
            let mut octets = [0; 4];
            octets.copy_from_slice(value);
            Some(Ip::V4(octets))
        }
        Protocol::Ip6 => {
            let mut octets = [0; 16];
            octets.copy_from_slice(value);
            Some(Ip::V6(octets))
        }
        _ => None,
    }
}

/// The port that a part names.
fn port(protocol: Protocol, value: &[u8]) -> Option<u16>
    requires { IsValue protocol value.now }
    ensures found { IfSome result (λ port. part protocol value.now ≡ port_part port) }
    ensures none { IfNone result ((port : ℕ) → part protocol value.now ≢ port_part port) }
{
    match protocol {
        Protocol::Tcp => Some(u16::from_be_bytes([value[0], value[1]])),
        _ => None,
    }
}

/// Whether nothing or one peer is left behind a socket.
fn ends(bytes: &[u8]) -> bool
    ensures { IsTrue result ↔ EndsSocket bytes.now }
{
    if bytes.is_empty() {
        return true;
    }
    let Some((protocol, value, rest)) = known_part(bytes) else {
        return false;
    };
    if named(protocol, value).is_none() {
        return false;
    }
    rest.is_empty()
}

/// The host and the port of an address.
pub(crate) fn socket_of(bytes: &[u8]) -> Option<(Ip, u16)>
    ensures { (a : Address) → SpellsAddress bytes.now a → GivesSocket a result }
{
    let Some((host_protocol, host_value, behind_host)) = known_part(bytes) else {
        return None;
    };
    let Some(ip) = host(host_protocol, host_value) else {
        return None;
    };
    let Some((port_protocol, port_value, behind_port)) = known_part(behind_host) else {
        return None;
    };
    let Some(number) = port(port_protocol, port_value) else {
        return None;
    };
    if !ends(behind_port) {
        return None;
    }
    Some((ip, number))
}
