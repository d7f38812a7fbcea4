//! Writing BCS items.

ghost use Rattle.std.specs.Prelude.{◌≡◌, ◌<◌, ◌≤◌, [], ◌++◌, IfOk, length, take};
ghost use Rattle.wire_bcs.specs.Items.{number_spell, bool_spell, bytes_spell, length_limit};
ghost use Rattle.wire_bcs.specs.Uleb.{uleb};
ghost use Rattle.wire_bcs.specs.Wrote.{Appends};

use crate::seq::{OutOfMemory, Seq};
use std::alloc::Global;
use std::marker::Model;

/// The bytes that were written. Each call appends one item, or nothing if memory is refused.
#[derive(Drop)]
pub struct Writer {
    bytes: Vec<u8>,
}

impl Model for Writer {
    ghost use Rattle.std.specs.Prelude.{List, ℕ};

    ghost Value = { List ℕ };

    ghost view = { λ w. w.bytes.items };
}

impl Writer {
    /// A writer with nothing in it. Takes no memory.
    pub fn new(alloc: Global) -> Writer
        ensures { result ≡ [] }
    {
        Writer {
            bytes: Vec::new(alloc),
        }
    }

    /// A writer with nothing in it, and room for some bytes.
    pub fn with_room(alloc: Global, bytes: usize) -> Result<Writer, OutOfMemory>
        ensures { IfOk result (λ w. w ≡ []) }
    {
        Ok(Writer {
            bytes: Vec::with_capacity(alloc, bytes)?,
        })
    }

    /// What was written. Takes no memory.
    pub fn finish(self) -> Seq<u8>
        ensures { result ≡ self }
    {
        Seq::from_vec(self.bytes)
    }

    /// Appends one byte.
    #[tactic(auto, using(crate::proofs::Numbers::spells))]
    pub fn put_u8(&mut self, value: u8) -> Result<(), OutOfMemory>
        ensures { Appends self.old self.new (number_spell 1 value) result }
    {
        self.bytes
            .extend_from_slice(value.to_le_bytes().as_slice())?;
        Ok(())
    }

    /// Appends two bytes, the lowest first.
    #[tactic(auto, using(crate::proofs::Numbers::spells))]
    pub fn put_u16(&mut self, value: u16) -> Result<(), OutOfMemory>
        ensures { Appends self.old self.new (number_spell 2 value) result }
    {
        self.bytes
            .extend_from_slice(value.to_le_bytes().as_slice())?;
        Ok(())
    }

    /// Appends four bytes, the lowest first.
    #[tactic(auto, using(crate::proofs::Numbers::spells))]
    pub fn put_u32(&mut self, value: u32) -> Result<(), OutOfMemory>
        ensures { Appends self.old self.new (number_spell 4 value) result }
    {
        self.bytes
            .extend_from_slice(value.to_le_bytes().as_slice())?;
        Ok(())
    }

    /// Appends eight bytes, the lowest first.
    #[tactic(auto, using(crate::proofs::Numbers::spells))]
    pub fn put_u64(&mut self, value: u64) -> Result<(), OutOfMemory>
        ensures { Appends self.old self.new (number_spell 8 value) result }
    {
        self.bytes
            .extend_from_slice(value.to_le_bytes().as_slice())?;
        Ok(())
    }

    /// Appends sixteen bytes, the lowest first.
    #[tactic(auto, using(crate::proofs::Numbers::spells))]
    pub fn put_u128(&mut self, value: u128) -> Result<(), OutOfMemory>
        ensures { Appends self.old self.new (number_spell 16 value) result }
    {
        self.bytes
            .extend_from_slice(value.to_le_bytes().as_slice())?;
        Ok(())
    }

    /// Appends one byte, 0 or 1.
    #[tactic(auto, unfolding(crate::specs::Items::bool_spell))]
    pub fn put_bool(&mut self, value: bool) -> Result<(), OutOfMemory>
        ensures { Appends self.old self.new (bool_spell value) result }
    {
        let byte = if value { 1 } else { 0 };
        self.bytes.push(byte)?;
        Ok(())
    }

    /// Appends a length in ULEB128.
    pub fn put_len(&mut self, length: u32) -> Result<(), OutOfMemory>
        requires { length ≤ 2147483647 }
        ensures { Appends self.old self.new (uleb length) result }
    {
        self.put_uleb(length)
    }

    /// Appends a variant number in ULEB128.
    pub fn put_tag(&mut self, tag: u32) -> Result<(), OutOfMemory>
        ensures { Appends self.old self.new (uleb tag) result }
    {
        self.put_uleb(tag)
    }

    /// Appends the bytes, without their length.
    pub fn put_fixed(&mut self, bytes: &[u8]) -> Result<(), OutOfMemory>
        ensures { Appends self.old self.new bytes.now result }
    {
        self.bytes.extend_from_slice(bytes)?;
        Ok(())
    }

    /// Appends the length of the bytes, and the bytes.
    #[tactic(auto, unfolding(crate::specs::Items::bytes_spell))]
    pub fn put_bytes(&mut self, bytes: &[u8]) -> Result<(), OutOfMemory>
        requires { length bytes.now < length_limit }
        ensures { Appends self.old self.new (bytes_spell bytes.now) result }
    {
        let (length, count) = uleb_bytes(bytes.len() as u32);
        append_both(&mut self.bytes, &length[..count], bytes)
    }

    /// Appends the length of the text's UTF-8 bytes, and the bytes.
    pub fn put_text(&mut self, text: &str) -> Result<(), OutOfMemory>
        requires { length text.now < length_limit }
        ensures { Appends self.old self.new (bytes_spell text.now) result }
    {
        self.put_bytes(text.as_bytes())
    }

    fn put_uleb(&mut self, number: u32) -> Result<(), OutOfMemory>
        ensures { Appends self.old self.new (uleb number) result }
    {
        let (bytes, count) = uleb_bytes(number);
        self.bytes.extend_from_slice(&bytes[..count])?;
        Ok(())
    }
}

/// The ULEB128 bytes of a number, and how many they are.
fn uleb_bytes(number: u32) -> ([u8; 5], usize)
    ensures count { result.1 ≤ 5 }
    ensures bytes { take result.1 result.0 ≡ uleb number }
{
    let mut bytes = [0; 5];
    let mut rest = number;
    for index in 0..4 {
        if rest < 128 {
            bytes[index] = rest as u8;
            return (bytes, index + 1);
        }
        bytes[index] = 128 + (rest % 128) as u8;
        rest /= 128;
    }
    bytes[4] = rest as u8;
    (bytes, 5)
}

/// Appends two pieces, both or none.
fn append_both(bytes: &mut Vec<u8>, first: &[u8], second: &[u8]) -> Result<(), OutOfMemory>
    ensures { Appends bytes.old.items bytes.new.items (first.now ++ second.now) result }
{
    let before = bytes.len();
    bytes.extend_from_slice(first)?;
    if bytes.extend_from_slice(second).is_err() {
        bytes.truncate(before);
        return Err(OutOfMemory);
    }
    Ok(())
}
