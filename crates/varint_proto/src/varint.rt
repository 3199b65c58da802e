//! Base-128 varints.

ghost use Rattle.std.specs.Prelude.{◌≡◌, ◌↔◌, ℕ, ◌+◌, ◌*◌, ◌^◌, ◌<◌, ◌≤◌, ◌++◌, length, take, position};
ghost use Rattle.std.specs.Prelude.{nat_lt, Option, Result, IfSome, IfNone, IfOk, IfErr, OnOk, OnErr};
ghost use Rattle.varint_proto.specs.Varint.{IsSpelling, value_of, SpellsShortest, BeginsWide, IsUnended, WideFault};
ghost use Rattle.varint_proto.specs.Varint.{ReadsShortest, shortest};
ghost use Rattle.varint_proto.specs.declared.fault.WireFault.{WireFault};

use crate::fault::{VarintRefused, WireFault};

/// The place of the first byte without the top bit, where that is one of the first `limit`.
fn last_place(bytes: &[u8], limit: usize) -> Option<usize>
    ensures { result ≡ position (λ b. nat_lt b 128) (take limit bytes.now) }
{
    bytes.iter().take(limit).position(|byte| *byte < 128)
}

/// Splits the bytes behind the first byte without the top bit, where that is one of the first `limit`.
fn split_spelling(bytes: &[u8], limit: usize) -> Option<(&[u8], &[u8])>
    ensures found { IfSome result (λ parts. IsSpelling parts.0.now × (length parts.0.now ≤ limit)
        × (bytes.now ≡ parts.0.now ++ parts.1.now)) }
    ensures none { IfNone result (IsUnended (take limit bytes.now)) }
{
    let last = last_place(bytes, limit)?;
    Some(bytes.split_at(last + 1))
}

/// The number that a spelling stands for.
fn number(spelling: &[u8]) -> u64
    requires { value_of spelling.now < 2 ^ 64 }
    ensures { result ≡ value_of spelling.now }
{
    match spelling {
        [] => 0,
        [byte, rest @ ..] => u64::from(*byte % 128) + 128 * number(rest),
    }
}

/// Reads the protobuf varint at the front, and gives what follows it.
pub(crate) fn read_wide(bytes: &[u8]) -> Result<(u64, &[u8]), WireFault>
    ensures found { IfOk result (λ read. BeginsWide bytes.now read.0 read.1.now) }
    ensures fault { IfErr result (WideFault bytes.now) }
{
    let Some((spelling, rest)) = split_spelling(bytes, 10) else {
        return Err(if bytes.len() < 10 {
            WireFault::Cut
        } else {
            WireFault::TooLong
        });
    };
    if spelling.len() == 10 && spelling[9] > 1 {
        return Err(WireFault::TooLong);
    }
    Ok((number(spelling), rest))
}

/// The shortest spelling of a number, at the front of ten bytes, and its length.
pub fn spell(number: u64) -> ([u8; 10], usize)
    ensures within { result.1 ≤ 10 }
    ensures spelling { take result.1 result.0 ≡ shortest number }
{
    let mut bytes = [0; 10];
    let mut rest = number;
    let mut len = 0;
    while rest >= 128 {
        bytes[len] = (rest % 128) as u8 + 128;
        rest /= 128;
        len += 1;
    }
    bytes[len] = rest as u8;
    (bytes, len + 1)
}

/// Appends the shortest spelling of a number.
pub fn write_varint(out: &mut Vec<u8>, number: u64) -> Result<(), VarintRefused>
    ensures written { OnOk result (out.new.items ≡ out.old.items ++ shortest number) }
    ensures shortest { OnOk result (SpellsShortest (shortest number) number) }
    ensures too_large { (result ≡ Err VarintRefused.TooLarge) ↔ (2 ^ 63 ≤ number) }
    ensures unchanged { OnErr result (out.new.items ≡ out.old.items) }
{
    if number >= 1 << 63 {
        return Err(VarintRefused::TooLarge);
    }
    let (spelling, len) = spell(number);
    out.extend_from_slice(&spelling[..len])?;
    Ok(())
}

/// The multiformats varint at the front.
fn shortest_in(bytes: &[u8]) -> Result<Option<(u64, usize)>, WireFault>
    ensures { ReadsShortest bytes.now result }
{
    let Some((spelling, _)) = split_spelling(bytes, 9) else {
        return if bytes.len() < 9 {
            Ok(None)
        } else {
            Err(WireFault::TooLong)
        };
    };
    if spelling.len() > 1 && spelling[spelling.len() - 1] == 0 {
        return Err(WireFault::NotShortest);
    }
    Ok(Some((number(spelling), spelling.len())))
}

/// Reads the multiformats varint at the front, and gives its length too. `None` asks for more bytes.
pub fn read_varint(bytes: &[u8]) -> Result<Option<(u64, usize)>, WireFault>
    ensures reads { ReadsShortest bytes.now result }
    ensures only { (other : Result (Option (ℕ × ℕ)) WireFault) → ReadsShortest bytes.now other
        → result ≡ other }
{
    shortest_in(bytes)
}
