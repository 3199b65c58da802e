//! What is printed of what a peer says of itself.

ghost use Rattle.std.specs.Prelude.{◌≡◌, List, ℕ, flat_map, OnOk};
ghost use Rattle.std.specs.Io.KnownBytes.{Appends};
ghost use Rattle.identify_h.specs.Parts.{texts, text};
ghost use Rattle.peer_texts.specs.Said.{hex_of, is_printable, escaped, said_line, maybe_line, hex_line};
ghost use Rattle.peer_texts.specs.Said.{IsAddrLine, AreAddrLines, IsMaybeAddr, IsSaid};

use identify_h::Identify;
use multiaddr::Multiaddr;
use std::alloc::Global;
use std::io;
use std::io::Write;

/// Whether a byte is a character of ASCII that is printed as it is.
fn is_printable(byte: u8) -> bool
    ensures { result ≡ is_printable byte }
{
    byte > 0x1f && byte < 0x7f
}

/// Prints the two hexadecimal digits of a byte.
#[tactic(auto, using(std::proofs::lemmas::Fmt::hex_byte))]
fn print_digits<O: Write>(byte: u8, output: &mut O) -> io::Result<()>
    ensures printed { OnOk result (Appends (O.contents output.old) (O.contents output.new) (hex_of byte)) }
{
    write!(output, "{byte:02x}")
}

/// Prints a byte of a peer: a printable character of ASCII as it is, but `\` twice, any other as `\x` and two
/// hexadecimal digits.
fn print_byte<O: Write>(byte: u8, output: &mut O) -> io::Result<()>
    ensures printed { OnOk result (Appends (O.contents output.old) (O.contents output.new) (escaped byte)) }
{
    if byte == b'\\' {
        return write!(output, "\\\\");
    }
    if is_printable(byte) {
        return write!(output, "{}", char::from(byte));
    }
    write!(output, "\\x")?;
    print_digits(byte, output)
}

/// Prints bytes of a peer.
fn print_escaped<O: Write>(bytes: &[u8], output: &mut O) -> io::Result<()>
    ensures printed { OnOk result (Appends (O.contents output.old) (O.contents output.new)
        (flat_map escaped bytes.now)) }
{
    for byte in bytes {
        print_byte(*byte, output)?;
    }
    Ok(())
}

/// Prints a line of a word and bytes of a peer.
fn print_text<O: Write>(word: &str, bytes: &[u8], output: &mut O) -> io::Result<()>
    ensures printed { OnOk result (Appends (O.contents output.old) (O.contents output.new)
        (said_line word.now bytes.now)) }
{
    write!(output, "{word} ")?;
    print_escaped(bytes, output)?;
    writeln!(output)
}

/// Prints such a line where the bytes are there.
fn print_maybe<O: Write>(word: &str, bytes: &Option<Vec<u8>>, output: &mut O) -> io::Result<()>
    ensures printed { OnOk result (Appends (O.contents output.old) (O.contents output.new)
        (maybe_line word.now (text bytes.now))) }
{
    match bytes {
        Some(bytes) => print_text(word, bytes, output),
        None => Ok(()),
    }
}

/// Prints bytes in hexadecimal.
fn print_hex<O: Write>(bytes: &[u8], output: &mut O) -> io::Result<()>
    ensures printed { OnOk result (Appends (O.contents output.old) (O.contents output.new)
        (flat_map hex_of bytes.now)) }
{
    for byte in bytes {
        print_digits(*byte, output)?;
    }
    Ok(())
}

/// Prints a line of a word and bytes in hexadecimal.
fn print_hex_line<O: Write>(word: &str, bytes: &[u8], output: &mut O) -> io::Result<()>
    ensures printed { OnOk result (Appends (O.contents output.old) (O.contents output.new)
        (hex_line word.now bytes.now)) }
{
    write!(output, "{word} ")?;
    print_hex(bytes, output)?;
    writeln!(output)
}

/// Prints a line of a word and an address of a peer: its text, or its bytes in hexadecimal where it has none, or memory
/// is refused.
fn print_addr<O: Write>(alloc: Global, word: &str, bytes: &[u8], output: &mut O) -> io::Result<()>
    ensures printed { OnOk result ((line : List ℕ) × IsAddrLine word.now bytes.now line
        × Appends (O.contents output.old) (O.contents output.new) line) }
{
    if let Ok(address) = Multiaddr::read(alloc, bytes) {
        if let Ok(text) = address.print() {
            return print_text(word, text.as_bytes(), output);
        }
    }
    print_hex_line(word, bytes, output)
}

/// Prints a line of the word and each address.
fn print_addrs<O: Write>(
    alloc: Global,
    word: &str,
    addrs: &[Vec<u8>],
    output: &mut O,
) -> io::Result<()>
    ensures printed { OnOk result ((printed : List ℕ) × AreAddrLines word.now (texts addrs.now) printed
        × Appends (O.contents output.old) (O.contents output.new) printed) }
{
    for addr in addrs {
        print_addr(alloc, word, addr, output)?;
    }
    Ok(())
}

/// Prints such a line where there is an address.
fn print_maybe_addr<O: Write>(
    alloc: Global,
    word: &str,
    addr: &Option<Vec<u8>>,
    output: &mut O,
) -> io::Result<()>
    ensures printed { OnOk result ((line : List ℕ) × IsMaybeAddr word.now (text addr.now) line
        × Appends (O.contents output.old) (O.contents output.new) line) }
{
    match addr {
        Some(addr) => print_addr(alloc, word, addr, output),
        None => Ok(()),
    }
}

/// Prints a line of the word and each text.
fn print_texts<O: Write>(word: &str, list: &[Vec<u8>], output: &mut O) -> io::Result<()>
    ensures printed { OnOk result (Appends (O.contents output.old) (O.contents output.new)
        (flat_map (said_line word.now) (texts list.now))) }
{
    for bytes in list {
        print_text(word, bytes, output)?;
    }
    Ok(())
}

/// Prints what a peer says of itself, but for its key: a line for each value that is there. It takes memory for the
/// texts of addresses; an address is printed in hexadecimal where that is refused.
pub fn print_said<O: Write>(alloc: Global, said: &Identify, output: &mut O) -> io::Result<()>
    ensures printed { OnOk result ((printed : List ℕ) × IsSaid said.now printed
        × Appends (O.contents output.old) (O.contents output.new) printed) }
{
    print_maybe("version", &said.version, output)?;
    print_maybe("agent", &said.agent, output)?;
    print_texts("protocol", &said.protocols, output)?;
    print_addrs(alloc, "listen", &said.listen, output)?;
    print_maybe_addr(alloc, "observed", &said.observed, output)
}
