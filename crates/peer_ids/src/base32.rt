//! Base32 of RFC 4648, in lower case and without padding.

ghost use Rattle.std.specs.Prelude.{◌≡◌, ◌↔◌, ◌+◌, ◌<◌, ◌≤◌, ◌++◌, ℕ, List, All, IsTrue, IsAscii, length, take};
ghost use Rattle.peer_ids.specs.Base32.{AreFives, AreLetters, IsBase32, IsLetter, IsRegrouped, letter_of};

use arrayvec::{ArrayString, ArrayVec};

/// The values of five bits that the bytes are cut into.
fn fives(bytes: &[u8]) -> ArrayVec<u8, 74>
    requires { length bytes.now ≤ 46 }
    ensures fives { AreFives result.items bytes.now }
    ensures short { length result.items ≤ 74 }
{
    let mut values = ArrayVec::new();
    let mut held: u32 = 0;
    let mut count: u32 = 0;
    for byte in bytes {
        held = held * 256 + u32::from(*byte);
        count += 8;
        while count >= 5 {
            count -= 5;
            values.push((held >> count) as u8);
            held %= 1 << count;
        }
    }
    if count > 0 {
        values.push((held << (5 - count)) as u8);
    }
    values
}

/// The letter of a value of five bits.
fn letter(value: u8) -> u8
    requires { value < 32 }
    ensures letter { result ≡ letter_of value }
{
    if value < 26 {
        b'a' + value
    } else {
        b'2' + (value - 26)
    }
}

/// The base32 of at most 46 bytes.
fn letters_of(bytes: &[u8]) -> ArrayVec<u8, 74>
    requires { length bytes.now ≤ 46 }
    ensures spelt { IsBase32 result.items bytes.now }
    ensures ascii { IsAscii result.items }
    ensures short { length result.items ≤ 74 }
{
    let values = fives(bytes);
    let mut letters = ArrayVec::new();
    for value in values.as_slice() {
        letters.push(letter(*value));
    }
    letters
}

/// Appends the base32 of at most 46 bytes to a text that has room for it.
pub(crate) fn encode(text: &mut ArrayString<75>, bytes: &[u8])
    requires short { length bytes.now ≤ 46 }
    requires room { length text.old.bytes ≤ 1 }
    ensures { (letters : List ℕ) × IsBase32 letters bytes.now × (text.new.bytes ≡ text.old.bytes ++ letters) }
{
    let letters = letters_of(bytes);
    match std::str::from_utf8(letters.as_slice()) {
        Ok(letters) => text.push_str(letters),
        Err(_) => unreachable!(),
    }
}

/// Whether each byte is a letter of base32.
pub(crate) fn are_letters(text: &[u8]) -> bool
    ensures { IsTrue result ↔ All IsLetter text.now }
{
    text.iter()
        .all(|letter| matches!(*letter, b'a'..=b'z' | b'2'..=b'7'))
}

/// The value that a letter stands for.
fn value(letter: u8) -> u8
    requires { IsLetter letter }
    ensures within { result < 32 }
    ensures letter { letter ≡ letter_of result }
{
    match letter {
        b'a'..=b'z' => letter - b'a',
        _ => letter - b'2' + 26,
    }
}

/// The bytes that at most 74 letters spell, how many they are, and the bits left over.
pub(crate) fn decode(letters: &[u8]) -> ([u8; 46], usize, u32)
    requires letters { All IsLetter letters.now }
    requires short { length letters.now ≤ 74 }
    ensures within { result.1 ≤ 46 }
    ensures spelt { (values : List ℕ) × (count : ℕ) × (count < 8) × AreLetters letters.now values
        × IsRegrouped 5 8 values (take result.1 result.0) result.2 count }
{
    let mut bytes = [0; 46];
    let mut len = 0;
    let mut held: u32 = 0;
    let mut count: u32 = 0;
    for letter in letters {
        held = held * 32 + u32::from(value(*letter));
        count += 5;
        if count >= 8 {
            count -= 8;
            bytes[len] = (held >> count) as u8;
            held %= 1 << count;
            len += 1;
        }
    }
    (bytes, len, held)
}
