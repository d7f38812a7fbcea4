//! Reading BCS items.

ghost use Rattle.std.specs.Prelude.{◌≡◌, ◌<◌, ◌≤◌, ◌+◌, ◌++◌, List, ℕ, length, IfOk};
ghost use Rattle.wire_bcs.specs.Place.{IsBytes, Takes, number_of_kind, start, left};
ghost use Rattle.wire_bcs.specs.Items.{number_read, front_read, bool_read, bytes_read, text_read, counted_read, length_limit};
ghost use Rattle.wire_bcs.specs.Uleb.{uleb_below, uleb_rest, uleb_at};
ghost use Rattle.wire_bcs.specs.UlebLaws.{room};
ghost use Rattle.wire_bcs.specs.Gives.{Item, Within, Ahead, Ended};

use crate::fault::{FaultKind, WireFault};
use std::marker::Model;

/// A place in an input, from which items are read. A refused call leaves the reader where it was, and
/// gives the offset of its item's first byte. No call takes memory.
#[derive(Drop)]
pub struct Reader<'a> {
    bytes: &'a [u8],
    at: usize,
}

impl<'a> Model for Reader<'a> {
    ghost use Rattle.std.specs.Prelude.{◌≤◌, length};
    ghost use Rattle.wire_bcs.specs.Place.{Place};

    ghost Value = { Place };

    ghost view = { λ r. record { input = r.bytes.now; at = r.at } };

    ghost invariant = { λ r. r.at ≤ length r.bytes.now };
}

impl<'a> Reader<'a> {
    /// A reader at the first byte.
    pub fn new(bytes: &'a [u8]) -> Reader<'a>
        ensures { result ≡ start bytes.now }
    {
        Reader { bytes, at: 0 }
    }

    /// A second reader at the same place.
    pub fn mark(&self) -> Reader<'a>
        ensures { result ≡ self.now }
    {
        Reader {
            bytes: self.bytes,
            at: self.at,
        }
    }

    /// How many bytes were read.
    pub fn at(&self) -> u64
        ensures { result ≡ self.now.at }
    {
        self.at as u64
    }

    /// The bytes from a mark up to here, lent. The mark stands in the same input, here or before.
    #[tactic(auto, using(crate::proofs::Between::marked))]
    pub(crate) fn since(&self, mark: &Reader<'a>) -> &'a [u8]
        requires { Ahead mark.now self.now }
        ensures text { (text : List ℕ) → Takes mark.now text self.now → result.now ≡ text }
        ensures input { IsBytes mark.now.input }
    {
        are_bytes(mark.bytes);
        let (_, rest) = self.bytes.split_at(mark.at);
        let (found, _) = rest.split_at(self.at - mark.at);
        found
    }

    /// The fault of this kind, at this place.
    pub fn fault(&self, kind: FaultKind) -> WireFault
        ensures { (result.at ≡ self.now.at) × (result.why ≡ number_of_kind kind) }
    {
        WireFault {
            at: self.at as u64,
            why: kind.number(),
        }
    }

    /// The next `count` bytes.
    #[tactic(auto, unfolding(crate::specs::Items::front_read))]
    fn front(&mut self, count: usize) -> Result<&'a [u8], WireFault>
        ensures item { Item (λ b. b.now) self.old self.new result (front_read count self.old) }
        ensures ahead { Ahead self.old self.new }
        ensures len { IfOk result (λ b. length b.now ≡ count) }
    {
        let at = self.at;
        let (_, rest) = self.bytes.split_at(at);
        if rest.len() < count {
            return Err(self.fault(FaultKind::Short));
        }
        let (found, _) = rest.split_at(count);
        self.at = at + count;
        Ok(found)
    }

    /// The next byte.
    #[tactic(auto, using(crate::proofs::Numbers::stands), unfolding(crate::specs::Items::number_read))]
    pub fn u8(&mut self) -> Result<u8, WireFault>
        ensures item { Item (λ n. n) self.old self.new result (number_read 1 self.old) }
        ensures ahead { Ahead self.old self.new }
    {
        let bytes = self.front(1)?;
        let mut cells = [0; 1];
        cells.copy_from_slice(bytes);
        Ok(u8::from_le_bytes(cells))
    }

    /// The number of the next two bytes, the lowest first.
    #[tactic(auto, using(crate::proofs::Numbers::stands), unfolding(crate::specs::Items::number_read))]
    pub fn u16(&mut self) -> Result<u16, WireFault>
        ensures item { Item (λ n. n) self.old self.new result (number_read 2 self.old) }
        ensures ahead { Ahead self.old self.new }
    {
        let bytes = self.front(2)?;
        let mut cells = [0; 2];
        cells.copy_from_slice(bytes);
        Ok(u16::from_le_bytes(cells))
    }

    /// The number of the next four bytes, the lowest first.
    #[tactic(auto, using(crate::proofs::Numbers::stands), unfolding(crate::specs::Items::number_read))]
    pub fn u32(&mut self) -> Result<u32, WireFault>
        ensures item { Item (λ n. n) self.old self.new result (number_read 4 self.old) }
        ensures ahead { Ahead self.old self.new }
    {
        let bytes = self.front(4)?;
        let mut cells = [0; 4];
        cells.copy_from_slice(bytes);
        Ok(u32::from_le_bytes(cells))
    }

    /// The number of the next eight bytes, the lowest first.
    #[tactic(auto, using(crate::proofs::Numbers::stands), unfolding(crate::specs::Items::number_read))]
    pub fn u64(&mut self) -> Result<u64, WireFault>
        ensures item { Item (λ n. n) self.old self.new result (number_read 8 self.old) }
        ensures ahead { Ahead self.old self.new }
    {
        let bytes = self.front(8)?;
        let mut cells = [0; 8];
        cells.copy_from_slice(bytes);
        Ok(u64::from_le_bytes(cells))
    }

    /// The number of the next sixteen bytes, the lowest first.
    #[tactic(auto, using(crate::proofs::Numbers::stands), unfolding(crate::specs::Items::number_read))]
    pub fn u128(&mut self) -> Result<u128, WireFault>
        ensures item { Item (λ n. n) self.old self.new result (number_read 16 self.old) }
        ensures ahead { Ahead self.old self.new }
    {
        let bytes = self.front(16)?;
        let mut cells = [0; 16];
        cells.copy_from_slice(bytes);
        Ok(u128::from_le_bytes(cells))
    }

    /// The next byte as a bool.
    #[tactic(auto, unfolding(crate::specs::Items::bool_read))]
    pub fn bool(&mut self) -> Result<bool, WireFault>
        ensures item { Item (λ b. b) self.old self.new result (bool_read self.old) }
        ensures ahead { Ahead self.old self.new }
    {
        let mut ahead = self.mark();
        let value = match ahead.u8()? {
            0 => false,
            1 => true,
            _ => return Err(self.fault(FaultKind::BadBool)),
        };
        *self = ahead;
        Ok(value)
    }

    /// The next ULEB128 as a length, at most 2147483647.
    pub fn len(&mut self) -> Result<u32, WireFault>
        ensures item { Item (λ n. n) self.old self.new result (uleb_below length_limit 5 self.old) }
        ensures ahead { Ahead self.old self.new }
        ensures below { IfOk result (λ n. n < length_limit) }
    {
        self.uleb(0x8000_0000, FaultKind::LargeLength)
    }

    /// The next ULEB128 as a variant number below the limit.
    pub fn tag(&mut self, limit: u32) -> Result<u32, WireFault>
        ensures item { Item (λ n. n) self.old self.new result (uleb_below limit 6 self.old) }
        ensures ahead { Ahead self.old self.new }
        ensures below { IfOk result (λ n. n < limit) }
    {
        self.uleb(limit, FaultKind::NoVariant)
    }

    #[tactic(auto, unfolding(crate::specs::Uleb::uleb_below))]
    fn uleb(&mut self, limit: u32, kind: FaultKind) -> Result<u32, WireFault>
        ensures item { Item (λ n. n) self.old self.new result (uleb_below limit (number_of_kind kind) self.old) }
        ensures ahead { Ahead self.old self.new }
        ensures below { IfOk result (λ n. n < limit) }
    {
        let at = self.at;
        let (_, rest) = self.bytes.split_at(at);
        match uleb_of(rest) {
            Ok((value, count)) => {
                if value >= limit {
                    return Err(self.fault(kind));
                }
                self.at = at + count;
                Ok(value)
            }
            Err(kind) => Err(self.fault(kind)),
        }
    }

    /// The next length and that many bytes, lent. They are one item: its faults are at its first byte.
    #[tactic(auto, unfolding(crate::specs::Items::bytes_read))]
    pub fn bytes(&mut self) -> Result<&'a [u8], WireFault>
        ensures item { Item (λ b. b.now) self.old self.new result (bytes_read self.old) }
        ensures ahead { Ahead self.old self.new }
    {
        let mut ahead = self.mark();
        match ahead.counted() {
            Ok(found) => {
                *self = ahead;
                Ok(found)
            }
            Err(fault) => Err(WireFault {
                at: self.at(),
                why: fault.why,
            }),
        }
    }

    fn counted(&mut self) -> Result<&'a [u8], WireFault>
        ensures item { Within (λ b. b.now) self.new result (counted_read self.old) }
        ensures ahead { Ahead self.old self.new }
    {
        let count = self.len()?;
        self.front(count as usize)
    }

    /// The next length and that many bytes as a UTF-8 text, lent.
    #[tactic(auto, using(crate::proofs::Texts::texts), unfolding(crate::specs::Items::text_read))]
    pub fn text(&mut self) -> Result<&'a str, WireFault>
        ensures item { Item (λ t. t.now) self.old self.new result (text_read self.old) }
        ensures ahead { Ahead self.old self.new }
    {
        let mut ahead = self.mark();
        let bytes = ahead.bytes()?;
        match std::str::from_utf8(bytes) {
            Ok(text) => {
                *self = ahead;
                Ok(text)
            }
            Err(_) => Err(self.fault(FaultKind::NotUtf8)),
        }
    }

    /// The next 32 bytes.
    pub fn fixed32(&mut self) -> Result<[u8; 32], WireFault>
        ensures item { Item (λ b. b) self.old self.new result (front_read 32 self.old) }
        ensures ahead { Ahead self.old self.new }
    {
        let bytes = self.front(32)?;
        let mut cells = [0; 32];
        cells.copy_from_slice(bytes);
        Ok(cells)
    }

    /// Checks that nothing is left; else the fault is at the first byte that is left.
    pub fn finish(&self) -> Result<(), WireFault>
        ensures { Ended self.now result }
    {
        let (_, rest) = self.bytes.split_at(self.at);
        if rest.is_empty() {
            Ok(())
        } else {
            Err(self.fault(FaultKind::LeftOver))
        }
    }
}

/// A lemma: each item of a slice of bytes is a byte.
fn are_bytes(bytes: &[u8])
    ensures { IsBytes bytes.now }
{}

/// The value of the ULEB128 at the start, and how many bytes it has.
fn uleb_of(bytes: &[u8]) -> Result<(u32, usize), FaultKind>
    ensures value { result ≡ uleb_at bytes.now }
    ensures count { IfOk result (λ x. x.1 ≤ length bytes.now) }
{
    match bytes {
        [] => Err(FaultKind::Short),
        [byte, rest @ ..] => {
            let byte = *byte as u32;
            if byte < 128 {
                return Ok((byte, 1));
            }
            let (value, count) = uleb_rest_of(rest, 3)?;
            Ok((byte - 128 + 128 * value, count + 1))
        }
    }
}

/// The value of the bytes that follow the first byte of a ULEB128, at most `more + 1` of them, and how many they are;
/// or the kind of the fault.
#[tactic(auto, using(crate::proofs::Ulebs::room_small, crate::proofs::Ulebs::room_large))]
fn uleb_rest_of(bytes: &[u8], more: u32) -> Result<(u32, usize), FaultKind>
    requires { more ≤ 3 }
    ensures value { result ≡ uleb_rest more bytes.now }
    ensures room { IfOk result (λ x. x.0 < room more) }
    ensures count { IfOk result (λ x. x.1 ≤ length bytes.now) }
{
    match bytes {
        [] => Err(FaultKind::Short),
        [byte, rest @ ..] => {
            let byte = *byte as u32;
            if byte == 0 {
                return Err(FaultKind::LongUleb);
            }
            if more == 0 {
                return if byte > 15 {
                    Err(FaultKind::LargeUleb)
                } else {
                    Ok((byte, 1))
                };
            }
            if byte < 128 {
                return Ok((byte, 1));
            }
            let (value, count) = uleb_rest_of(rest, more - 1)?;
            Ok((byte - 128 + 128 * value, count + 1))
        }
    }
}
