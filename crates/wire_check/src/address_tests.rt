use crate::asserts::{Fault, Told, are_faults, holds, same};
use multiaddr::*;
use peer_ids::PeerId;
use std::alloc::{AllocError, Global};
use std::test::*;

const PEER: &str = "bafzaajaiaejcaaaaaaaaaaaaaaaaaaaaaaaaaaaaaaaaaaaaaaaaaaaaaaaaaaaa";

fn is_printed(address: &Multiaddr, text: &str) -> bool {
    match address.print() {
        Ok(printed) => printed.as_str() == text,
        Err(_) => false,
    }
}

// ---- texts

static TEXTS: [(&str, &[u8]); 7] = [
    // A name of any letters.
    ("/dns/A b\0\n\x7f", b"\x35\x06A b\0\n\x7f"),
    ("/dns/\u{fc}.example", b"\x35\x0a\xc3\xbc.example"),
    (
        "/ip4/127.0.0.1/tcp/4001",
        &[0x04, 0x7f, 0, 0, 1, 0x06, 0x0f, 0xa1],
    ),
    ("/dns4/localhost/tcp/80", b"\x36\x09localhost\x06\x00\x50"),
    ("/dns/a.example", b"\x35\x09a.example"),
    ("/dns6/h/tcp/0", b"\x37\x01h\x06\x00\x00"),
    ("/tcp/65535", &[0x06, 0xff, 0xff]),
];

/// Whether the text has these bytes, and is printed from both.
fn has_bytes(alloc: Global, text: &str, bytes: &[u8]) -> bool {
    let is_parsed = match Multiaddr::parse(alloc, text) {
        Ok(address) => address.bytes() == bytes && is_printed(&address, text),
        Err(_) => false,
    };
    let is_read = match Multiaddr::read(alloc, bytes) {
        Ok(address) => is_printed(&address, text),
        Err(_) => false,
    };
    is_parsed && is_read
}

#[test]
fn texts_and_bytes(rt: HostRuntime) {
    for (row, (text, bytes)) in TEXTS.iter().enumerate() {
        holds(&rt, ("row", row), has_bytes(rt.alloc(), *text, *bytes));
    }
}

/// The published examples of the text of IPv6 addresses (RFC 5952, sections 2 and 4), each with the form that is
/// printed.
static FORMS: [(&str, &str); 21] = [
    ("0:0:1:0:0:1:0:0", "::1:0:0:1:0:0"),
    ("2001:db8:0:0:1:0:0:1", "2001:db8::1:0:0:1"),
    ("2001:0db8:0:0:1:0:0:1", "2001:db8::1:0:0:1"),
    ("2001:db8::1:0:0:1", "2001:db8::1:0:0:1"),
    ("2001:db8::0:1:0:0:1", "2001:db8::1:0:0:1"),
    ("2001:0db8::1:0:0:1", "2001:db8::1:0:0:1"),
    ("2001:db8:0:0:1::1", "2001:db8::1:0:0:1"),
    ("2001:db8:0000:0:1::1", "2001:db8::1:0:0:1"),
    ("2001:DB8:0:0:1::1", "2001:db8::1:0:0:1"),
    ("2001:0db8::0001", "2001:db8::1"),
    ("2001:db8:0:0:0:0:2:1", "2001:db8::2:1"),
    ("2001:db8:0:1:1:1:1:1", "2001:db8:0:1:1:1:1:1"),
    ("2001:db8::1:1:1:1:1", "2001:db8:0:1:1:1:1:1"),
    ("2001:0:0:1:0:0:0:1", "2001:0:0:1::1"),
    (
        "2001:db8:aaaa:bbbb:cccc:dddd:eeee:0001",
        "2001:db8:aaaa:bbbb:cccc:dddd:eeee:1",
    ),
    (
        "2001:db8:aaaa:bbbb:cccc:dddd::1",
        "2001:db8:aaaa:bbbb:cccc:dddd:0:1",
    ),
    (
        "2001:db8:aaaa:bbbb:cccc:dddd:eeee:AaAa",
        "2001:db8:aaaa:bbbb:cccc:dddd:eeee:aaaa",
    ),
    ("2001:db8:0:0:0::1", "2001:db8::1"),
    ("::", "::"),
    ("::1", "::1"),
    ("::ffff:c000:201", "::ffff:c000:201"),
];

/// The address of a host.
fn of_host(alloc: Global, host: &str) -> Result<String, AllocError> {
    format!(in alloc; "/ip6/{host}/tcp/80")
}

fn has_form(alloc: Global, text: &str, form: &str) -> Result<bool, AllocError> {
    let text = of_host(alloc, text)?;
    let form = of_host(alloc, form)?;
    match Multiaddr::parse(alloc, text.as_str()) {
        Ok(address) => Ok(is_printed(&address, form.as_str())),
        Err(_) => Ok(false),
    }
}

#[test]
fn printed_forms_of_ip6(rt: HostRuntime) {
    for (row, (text, form)) in FORMS.iter().enumerate() {
        same(
            &rt,
            ("row", row),
            has_form(rt.alloc(), *text, *form),
            Ok(true),
        );
    }
}

static BAD_TEXTS: [(&str, AddrFault); 28] = [
    ("", AddrFault::Empty),
    ("ip4/1.2.3.4", AddrFault::BadValue),
    ("/ip4", AddrFault::Cut),
    ("/", AddrFault::UnknownProtocol),
    ("/quic/1", AddrFault::UnknownProtocol),
    ("/ip4/1.2.3.4/", AddrFault::UnknownProtocol),
    ("/ip4/", AddrFault::BadValue),
    ("/tcp/", AddrFault::BadValue),
    ("/ip6/", AddrFault::BadValue),
    ("/dns4/", AddrFault::BadValue),
    ("/dns6/", AddrFault::BadValue),
    ("/p2p/", AddrFault::BadValue),
    ("/ip4/1.2.3.4/tcp//p2p/bafzaaaa", AddrFault::BadValue),
    ("/ip4/1.2.3", AddrFault::BadValue),
    ("/ip4/1.2.3.04", AddrFault::BadValue),
    ("/ip4/1.2.3.256", AddrFault::BadValue),
    ("/ip4/127.0.0.1/tcp/04001", AddrFault::BadValue),
    ("/tcp/65536", AddrFault::BadValue),
    ("/tcp/+1", AddrFault::BadValue),
    ("/ip6/::1.2.3.4", AddrFault::BadValue),
    ("/ip6/1::2::3", AddrFault::BadValue),
    ("/ip6/1:2:3:4:5:6:7", AddrFault::BadValue),
    ("/ip6/12345::", AddrFault::BadValue),
    ("/ip6/1:2:3:4:5:6:7:8::", AddrFault::BadValue),
    ("/ip6/1:2:3:4::5:6:7:8", AddrFault::BadValue),
    ("/dns/", AddrFault::BadValue),
    ("/p2p/bafzaaa", AddrFault::BadValue),
    ("/ip4/x/quic/1", AddrFault::BadValue),
];

#[test]
fn faults_of_texts(rt: HostRuntime) {
    for (row, (text, fault)) in BAD_TEXTS.iter().enumerate() {
        let found = Multiaddr::parse(rt.alloc(), *text).err();
        same(&rt, ("row", row), found, Some(*fault));
    }
}

// ---- bytes

/// Bytes, and behind them so many letters a, and the fault that they have, if they have one.
static BYTES: [((&[u8], usize), Option<AddrFault>); 16] = [
    ((&[], 0), Some(AddrFault::Empty)),
    // A code of 2^63.
    (
        (b"\x80\x80\x80\x80\x80\x80\x80\x80\x80\x01", 0),
        Some(AddrFault::BadValue),
    ),
    (
        (&[0x04, 0x7f, 0, 0, 1, 0x06, 0x0f], 0),
        Some(AddrFault::Cut),
    ),
    ((&[0x84], 0), Some(AddrFault::Cut)),
    ((&[0x84, 0x00], 0), Some(AddrFault::BadValue)),
    ((&[0x35, 0x02, b'a'], 0), Some(AddrFault::Cut)),
    ((&[0x35, 0x00], 0), Some(AddrFault::BadValue)),
    ((&[0x35, 0x01, b'/'], 0), Some(AddrFault::BadValue)),
    ((&[0xa5, 0x03, 0x01, 0x00], 0), Some(AddrFault::BadValue)),
    ((&[0x35, 0x80, 0x02], 256), Some(AddrFault::BadValue)),
    ((&[0x35, 0x01, 0xff], 0), Some(AddrFault::BadValue)),
    // Lengths that aren't spelt as short as may be.
    ((&[0x36, 0x81, 0x00], 0), Some(AddrFault::BadValue)),
    ((&[0x37, 0x81, 0x00], 0), Some(AddrFault::BadValue)),
    ((&[0xa5, 0x03, 0x82, 0x00], 0), Some(AddrFault::BadValue)),
    // A name of 256 bytes, which are 255 characters.
    (
        (&[0x35, 0x80, 0x02, 0xc3, 0xa9], 254),
        Some(AddrFault::BadValue),
    ),
    // A name of 255 bytes.
    ((&[0x35, 0xff, 0x01], 255), None),
];

fn fault_of(alloc: Global, bytes: (&[u8], usize)) -> Result<Option<AddrFault>, AllocError> {
    let (front, count) = bytes;
    let mut bytes = Vec::from_slice(alloc, front)?;
    for _ in 0..count {
        bytes.push(b'a')?;
    }
    Ok(Multiaddr::read(alloc, &bytes).err())
}

#[test]
fn faults_of_bytes(rt: HostRuntime) {
    for (row, (bytes, fault)) in BYTES.iter().enumerate() {
        same(&rt, ("row", row), fault_of(rt.alloc(), *bytes), Ok(*fault));
    }
}

/// Bytes with an opaque part: of code 273, 0 or 2^63 - 1, and behind a peer and behind a socket.
static OPAQUE: [&[u8]; 6] = [
    &[0x04, 0x7f, 0, 0, 1, 0x91, 0x02, 0x0f, 0xa1],
    &[0x00],
    &[0x06, 0x0f, 0xa1, 0x00, 0x07],
    b"\xff\xff\xff\xff\xff\xff\xff\xff\x7f",
    &[0xa5, 0x03, 0x02, 0x00, 0x00, 0x91, 0x02],
    &[0x04, 0x7f, 0, 0, 1, 0x06, 0x0f, 0xa1, 0x91, 0x02],
];

/// Whether the bytes are kept and not printed, and no peer and no socket is seen.
fn is_opaque(alloc: Global, bytes: &[u8]) -> bool {
    match Multiaddr::read(alloc, bytes) {
        Ok(address) => {
            let is_hidden = address.socket().is_none() && address.peer().is_none();
            let fault = address.print().err();
            is_hidden && address.bytes() == bytes && fault == Some(AddrFault::UnknownProtocol)
        }
        Err(_) => false,
    }
}

#[test]
fn an_opaque_part_is_kept_and_not_printed(rt: HostRuntime) {
    for (row, bytes) in OPAQUE.iter().enumerate() {
        holds(&rt, ("row", row), is_opaque(rt.alloc(), *bytes));
    }
}

// ---- sockets and peers

/// An address, how many bytes it has, its socket, and whether [`PEER`] is its peer.
struct Row {
    text: &'static str,
    len: usize,
    socket: Option<(Ip, u16)>,
    named: bool,
}

const LOCAL: Option<(Ip, u16)> = Some((Ip::V4([127, 0, 0, 1]), 4001));

static ROWS: [Row; 13] = [
    Row {
        text: "/ip4/127.0.0.1/tcp/4001",
        len: 8,
        socket: LOCAL,
        named: false,
    },
    Row {
        text: "/ip4/127.0.0.1/tcp/0",
        len: 8,
        socket: Some((Ip::V4([127, 0, 0, 1]), 0)),
        named: false,
    },
    Row {
        text: "/ip4/127.0.0.1/tcp/65535",
        len: 8,
        socket: Some((Ip::V4([127, 0, 0, 1]), 65535)),
        named: false,
    },
    Row {
        text: "/ip4/127.0.0.1/tcp/4001/p2p/bafzaajaiaejcaaaaaaaaaaaaaaaaaaaaaaaaaaaaaaaaaaaaaaaaaaaaaaaaaaaa",
        len: 49,
        socket: LOCAL,
        named: true,
    },
    Row {
        text: "/ip4/127.0.0.1/tcp/4001/p2p/bafzaajaiaejcaaaaaaaaaaaaaaaaaaaaaaaaaaaaaaaaaaaaaaaaaaaaaaaaaaaa/dns/a",
        len: 52,
        socket: None,
        named: false,
    },
    Row {
        text: "/ip4/127.0.0.1/tcp/4001/p2p/bafzaajaiaejcaaaaaaaaaaaaaaaaaaaaaaaaaaaaaaaaaaaaaaaaaaaaaaaaaaaa\
            /p2p/bafzaajaiaejcaaaaaaaaaaaaaaaaaaaaaaaaaaaaaaaaaaaaaaaaaaaaaaaaaaaa",
        len: 90,
        socket: None,
        named: true,
    },
    Row {
        text: "/dns4/localhost/tcp/80",
        len: 14,
        socket: None,
        named: false,
    },
    Row {
        text: "/ip4/127.0.0.1",
        len: 5,
        socket: None,
        named: false,
    },
    Row {
        text: "/ip4/127.0.0.1/tcp/1/tcp/2",
        len: 11,
        socket: None,
        named: false,
    },
    Row {
        text: "/tcp/4001/ip4/127.0.0.1",
        len: 8,
        socket: None,
        named: false,
    },
    Row {
        text: "/ip6/::1/tcp/1",
        len: 20,
        socket: Some((Ip::V6([0, 0, 0, 0, 0, 0, 0, 0, 0, 0, 0, 0, 0, 0, 0, 1]), 1)),
        named: false,
    },
    Row {
        text: "/ip6/::1/tcp/1/p2p/bafzaajaiaejcaaaaaaaaaaaaaaaaaaaaaaaaaaaaaaaaaaaaaaaaaaaaaaaaaaaa",
        len: 61,
        socket: Some((Ip::V6([0, 0, 0, 0, 0, 0, 0, 0, 0, 0, 0, 0, 0, 0, 0, 1]), 1)),
        named: true,
    },
    // An IPv6 address that holds an IPv4 address is one still.
    Row {
        text: "/ip6/::ffff:7f00:1/tcp/4001",
        len: 20,
        socket: Some((
            Ip::V6([0, 0, 0, 0, 0, 0, 0, 0, 0, 0, 0xff, 0xff, 127, 0, 0, 1]),
            4001,
        )),
        named: false,
    },
];

fn is_as(alloc: Global, row: &Row) -> bool {
    let peer: Option<PeerId> = if row.named { PEER.parse().ok() } else { None };
    match Multiaddr::parse(alloc, row.text) {
        Ok(address) => {
            let is_named = address.peer() == peer && peer.is_some() == row.named;
            address.bytes().len() == row.len && address.socket() == row.socket && is_named
        }
        Err(_) => false,
    }
}

#[test]
fn sockets_and_peers(rt: HostRuntime) {
    for (number, row) in ROWS.iter().enumerate() {
        holds(&rt, ("row", number), is_as(rt.alloc(), row));
    }
}

// ---- faults

impl Fault for AddrFault {
    fn number(self) -> usize {
        self as usize
    }
}

static FAULTS: [Told<AddrFault>; 5] = [
    (AddrFault::Empty, 1, "an address has no parts"),
    (
        AddrFault::UnknownProtocol,
        2,
        "an address has an unknown protocol",
    ),
    (AddrFault::Cut, 3, "an address ends within a part"),
    (AddrFault::BadValue, 4, "an address has a bad value"),
    (AddrFault::OutOfMemory, 5, "out of memory"),
];

#[test]
fn numbers_and_texts_of_faults(rt: HostRuntime) {
    are_faults(&rt, rt.alloc(), &FAULTS);
}
