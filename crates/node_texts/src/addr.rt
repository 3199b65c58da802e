//! `node addr`: from the text of an address to its bytes, and to the one text that it is printed as.

ghost use Rattle.std.specs.Prelude.{◌≡◌, List, Err, IfOk, IfErr, string_bytes};
ghost use Rattle.std.specs.List.{flat_map};
ghost use Rattle.hex.specs.Hex.{encode_lower};
ghost use Rattle.multiaddr.specs.declared.fault.AddrFault.{AddrFault};
ghost use Rattle.multiaddr.specs.Part.{Part, spelling};
ghost use Rattle.multiaddr.specs.Text.{ReadsParts, TextFault, RefusesText, PrintsParts};

use multiaddr::{AddrFault, Multiaddr};
use std::alloc::{AllocError, Global};

/// What is printed of an address.
#[derive(Debug, Drop)]
pub struct AddrLines {
    /// Its bytes in hexadecimal.
    pub bytes: String,
    /// Its text.
    pub text: String,
}

/// The bytes and the printed text of the address that a text spells.
fn lines_of(alloc: Global, text: &str) -> Result<AddrLines, AddrFault>
    ensures found { IfOk result (λ lines. (parts : List Part) × ReadsParts text.now parts
        × (string_bytes lines.bytes ≡ encode_lower (flat_map spelling parts))
        × PrintsParts (string_bytes lines.text) parts) }
    ensures refused { IfErr result (RefusesText text.now) }
{
    let address = match Multiaddr::parse(alloc, text) {
        Ok(address) => address,
        Err(fault) => return Err(fault),
    };
    let text = match address.print() {
        Ok(text) => text,
        Err(fault) => return Err(fault),
    };
    match hex::encode(alloc, address.bytes()) {
        Ok(bytes) => Ok(AddrLines { bytes, text }),
        Err(AllocError) => Err(AddrFault::OutOfMemory),
    }
}

/// The bytes and the printed text of the address that a text spells. Memory is asked for only where it spells one.
pub fn addr_lines(alloc: Global, text: &str) -> Result<AddrLines, AddrFault>
    ensures found { IfOk result (λ lines. (parts : List Part) × ReadsParts text.now parts
        × (string_bytes lines.bytes ≡ encode_lower (flat_map spelling parts))
        × PrintsParts (string_bytes lines.text) parts) }
    ensures refused { IfErr result (RefusesText text.now) }
    ensures only_fault { (fault : AddrFault) → TextFault text.now fault → result ≡ Err fault }
{
    lines_of(alloc, text)
}
