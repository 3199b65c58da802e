//! The fields of a protobuf message.

ghost use Rattle.std.specs.Prelude.{◌≡◌, ◌↔◌, ℕ, ◌+◌, ◌*◌, ◌^◌, ◌<◌, ◌≤◌, List, [], ◌++◌, length, vec_len, IfSome};
ghost use Rattle.std.specs.Prelude.{OnSome, IfOk, IfErr, OnOk, OnErr};

use crate::fault::WireFault;
use crate::varint::{read_wide, spell};
use std::alloc::AllocError;
use std::marker::Model;

/// What a field holds, by its wire type.
#[derive(Clone, Copy, Debug, PartialEq, Eq)]
pub enum Value<'a> {
    /// Wire type 0.
    Varint(u64),
    /// Wire type 1: eight bytes as they stand.
    Fixed64([u8; 8]),
    /// Wire type 2: as many bytes as the length before them says.
    Bytes(&'a [u8]),
    /// Wire type 5: four bytes as they stand.
    Fixed32([u8; 4]),
}

/// A field of a message.
#[derive(Clone, Copy, Debug, PartialEq, Eq)]
pub struct Field<'a> {
    /// The number of the field, from its tag.
    pub number: u32,
    /// What it holds.
    pub value: Value<'a>,
}

ghost use Rattle.std.specs.Option.{option_copied};
ghost use Rattle.varint_proto.specs.declared.fault.WireFault.{WireFault};
ghost use Rattle.varint_proto.specs.Message.{BeginsContent, content_of, entry_of, wire_type, Begins, FieldFault};
ghost use Rattle.varint_proto.specs.Message.{ValueFault, Entry, IsField, varint_at, body_at, IsTag, shortest_field};
ghost use Rattle.varint_proto.specs.Message.{entry, Varint, Bytes};
ghost use Rattle.std.specs.Vec.{vec_capacity};

impl<'a> Field<'a> {
    /// The number that it holds, where it is the varint of this number.
    pub fn varint(&self, number: u32) -> Option<u64>
        ensures { result ≡ varint_at number (entry_of self.now) }
    {
        match self.value {
            Value::Varint(held) if self.number == number => Some(held),
            _ => None,
        }
    }

    /// The bytes that it holds, where it is the length-delimited field of this number.
    pub fn body(&self, number: u32) -> Option<&'a [u8]>
        ensures { option_copied result ≡ body_at number (entry_of self.now) }
    {
        match self.value {
            Value::Bytes(held) if self.number == number => Some(held),
            _ => None,
        }
    }
}

/// The fields of a message, read one after another. Contracts see the bytes that are left.
#[derive(Drop)]
pub struct Fields<'a> {
    rest: &'a [u8],
}

impl<'a> Model for Fields<'a> {
    ghost Value = { List ℕ };

    ghost view = { λ a. a.rest.now };
}

/// Reads a value of this wire type at the front, and gives what follows it.
fn read_value(wire: u32, bytes: &[u8]) -> Result<(Value, &[u8]), WireFault>
    ensures wire_type { IfOk result (λ read. wire ≡ wire_type (content_of read.0)) }
    ensures found { IfOk result (λ read. BeginsContent bytes.now (content_of read.0) read.1.now) }
    ensures fault { IfErr result (ValueFault wire bytes.now) }
{
    match wire {
        0 => {
            let (number, rest) = read_wide(bytes)?;
            Ok((Value::Varint(number), rest))
        }
        1 => {
            let (eight, rest) = bytes.split_first_chunk().ok_or(WireFault::Cut)?;
            Ok((Value::Fixed64(*eight), rest))
        }
        2 => {
            let (len, rest) = read_wide(bytes)?;
            if (rest.len() as u64) < len {
                return Err(WireFault::Cut);
            }
            let (body, rest) = rest.split_at(len as usize);
            Ok((Value::Bytes(body), rest))
        }
        5 => {
            let (four, rest) = bytes.split_first_chunk().ok_or(WireFault::Cut)?;
            Ok((Value::Fixed32(*four), rest))
        }
        _ => Err(WireFault::BadWire),
    }
}

/// Reads the field at the front, and gives what follows it.
fn read_field(bytes: &[u8]) -> Result<(Field, &[u8]), WireFault>
    requires { 0 < length bytes.now }
    ensures found { IfOk result (λ read. Begins bytes.now (entry_of read.0) read.1.now) }
    ensures fault { IfErr result (FieldFault bytes.now) }
{
    let (tag, rest) = read_wide(bytes)?;
    let Ok(tag) = u32::try_from(tag) else {
        return Err(WireFault::BadNumber);
    };
    if tag < 8 {
        return Err(WireFault::BadNumber);
    }
    let (value, rest) = read_value(tag % 8, rest)?;
    Ok((
        Field {
            number: tag / 8,
            value,
        },
        rest,
    ))
}

impl<'a> Fields<'a> {
    /// The fields of these bytes.
    pub fn new(bytes: &'a [u8]) -> Self
        ensures { result ≡ bytes.now }
    {
        Fields { rest: bytes }
    }

    /// The next field. After a fault the same fault comes again.
    pub fn next(&mut self) -> Result<Option<Field<'a>>, WireFault>
        ensures found { IfOk result (λ read. IfSome read (λ field. Begins self.old (entry_of field) self.new)) }
        ensures shorter { IfOk result (λ read. OnSome read (length self.new < length self.old)) }
        ensures end { (result ≡ Ok None) ↔ (self.old ≡ []) }
        ensures ended { (result ≡ Ok None) → self.new ≡ self.old }
        ensures fault { IfErr result (FieldFault self.old) }
        ensures err { OnErr result (self.new ≡ self.old) }

        // The field that stands at the front, and no other, and the fault that stands there.
        ensures only_field { (f : Entry) (rest : List ℕ) → Begins self.old f rest
            → IsField result f × (self.new ≡ rest) }
        ensures only_fault { (fault : WireFault) → FieldFault self.old fault → result ≡ Err fault }
    {
        if self.rest.is_empty() {
            return Ok(None);
        }
        let (field, rest) = read_field(self.rest)?;
        self.rest = rest;
        Ok(Some(field))
    }
}

/// Appends a piece for which there is room.
pub(crate) fn append(out: &mut Vec<u8>, piece: &[u8])
    requires { vec_len out.old + length piece.now ≤ vec_capacity out.old }
    ensures items { out.new.items ≡ out.old.items ++ piece.now }
    ensures room { vec_capacity out.old ≤ vec_capacity out.new }
{
    match out.extend_from_slice(piece) {
        Ok(()) => {}
        Err(_) => unreachable!(),
    }
}

/// Appends the shortest spelling of a field that holds a number (wire type 0).
pub fn write_number(out: &mut Vec<u8>, field: u32, number: u64) -> Result<(), AllocError>
    requires { IsTag (8 * field) }
    ensures written { OnOk result (out.new.items ≡ out.old.items ++ shortest_field (entry field (Varint number))) }
    ensures unchanged { OnErr result (out.new.items ≡ out.old.items) }
{
    let (tag, tag_len) = spell(u64::from(8 * field));
    let (spelling, len) = spell(number);
    out.reserve(tag_len + len)?;
    append(out, &tag[..tag_len]);
    append(out, &spelling[..len]);
    Ok(())
}

/// Appends the shortest spelling of a field that holds bytes (wire type 2).
pub fn write_body(out: &mut Vec<u8>, field: u32, body: &[u8]) -> Result<(), AllocError>
    requires { IsTag (8 * field + 2) }
    ensures written { OnOk result (out.new.items ≡ out.old.items ++ shortest_field (entry field (Bytes body.now))) }
    ensures unchanged { OnErr result (out.new.items ≡ out.old.items) }
{
    let (tag, tag_len) = spell(u64::from(8 * field + 2));
    let (spelling, len) = spell(body.len() as u64);
    out.reserve(tag_len + len + body.len())?;
    append(out, &tag[..tag_len]);
    append(out, &spelling[..len]);
    append(out, body);
    Ok(())
}

/// How many bytes a field (wire type 2) takes that holds so many.
pub fn field_len(field: u32, len: usize) -> usize
    requires tag { IsTag (8 * field + 2) }
    requires small { len + 20 < 2 ^ 64 }
    ensures most { result ≤ len + 20 }
    ensures length { (body : List ℕ) → length body ≡ len
        → result ≡ length (shortest_field (entry field (Bytes body))) }
{
    spell(u64::from(8 * field + 2)).1 + spell(len as u64).1 + len
}
