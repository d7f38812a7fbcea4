//! Values on the wire.

ghost use Rattle.std.specs.Prelude.{◌≡◌, ◌<◌, ◌++◌, List, ℕ, IfOk, IsErrOf, Ok, length};
ghost use Rattle.wire_bcs.specs.Codec.{Codec};
ghost use Rattle.wire_bcs.specs.Place.{Place, Takes, IsBytes, left, forward};
ghost use Rattle.wire_bcs.specs.Digests.{digest};
ghost use Rattle.wire_bcs.specs.Shapes.{seq, option};
ghost use Rattle.wire_bcs.specs.Whole.{whole};
ghost use Rattle.wire_bcs.specs.Wrote.{Writes};
ghost use Rattle.wire_bcs.specs.Gives.{Gives, Ahead, Decodes};
ghost use Rattle.wire_bcs.specs.declared.fault.Unread.TheVariants as unread;

use crate::fault::Unread;
use crate::reader::Reader;
use crate::seq::{OutOfMemory, Seq};
use crate::writer::Writer;
use digest_core::Digest;
use std::alloc::Global;

/// A type with one encoding for each value (BCS).
pub trait Wire: Drop {
    ghost codec: { Codec Self };

    /// Appends the encoding. A refused call has appended a prefix of it.
    fn write_into(&self, writer: &mut Writer) -> Result<(), OutOfMemory>
        requires { codec.short self.now }
        ensures { Writes writer.old writer.new (codec.spell self.now) result };

    /// Reads one value from the start of what is left, or reports the first fault and stands there. If
    /// memory is refused the reader stands in the same input, and not before. A caller that reads several values
    /// from one reader calls [`read`].
    fn read_from(alloc: Global, reader: &mut Reader) -> Result<Self, Unread>
        ensures exact { Gives reader.new result (codec.read reader.old) }
        ensures ahead { Ahead reader.old reader.new };
}

#[tactic(auto, unfolding(crate::specs::Digests::digest), using(crate::specs::Wrote::parts))]
impl Wire for Digest {
    ghost codec = { digest };

    fn write_into(&self, writer: &mut Writer) -> Result<(), OutOfMemory> {
        writer.put_fixed(&self.0)?;
        Ok(())
    }

    fn read_from(_alloc: Global, reader: &mut Reader) -> Result<Self, Unread> {
        Ok(Digest(reader.fixed32()?))
    }
}

/// The most items for which room is made before a list is read: a longer list grows as its items come, since the input
/// may end before them.
const FIRST_ITEMS: u32 = 64;

#[tactic(auto, unfolding(crate::specs::Shapes::seq_spell, crate::specs::Shapes::seq_read), using(crate::specs::Wrote::parts))]
impl<T: Wire> Wire for Seq<T> {
    ghost codec = { seq T.codec };

    fn write_into(&self, writer: &mut Writer) -> Result<(), OutOfMemory> {
        writer.put_len(self.len() as u32)?;
        for item in self.as_slice() {
            item.write_into(writer)?;
        }
        Ok(())
    }

    fn read_from(alloc: Global, reader: &mut Reader) -> Result<Self, Unread> {
        let count = reader.len()?;
        let mut items = Seq::with_room(alloc, count.min(FIRST_ITEMS) as u64)?;
        for _ in 0..count {
            items.push(T::read_from(alloc, reader)?)?;
        }
        Ok(items)
    }
}

#[tactic(auto, unfolding(crate::specs::Shapes::option_spell, crate::specs::Shapes::option_read), using(crate::specs::Wrote::parts))]
impl<T: Wire> Wire for Option<T> {
    ghost codec = { option T.codec };

    fn write_into(&self, writer: &mut Writer) -> Result<(), OutOfMemory> {
        match self {
            None => {
                writer.put_bool(false)?;
                Ok(())
            }
            Some(value) => {
                writer.put_bool(true)?;
                value.write_into(writer)?;
                Ok(())
            }
        }
    }

    fn read_from(alloc: Global, reader: &mut Reader) -> Result<Self, Unread> {
        if !reader.bool()? {
            return Ok(None);
        }
        let value = T::read_from(alloc, reader)?;
        Ok(Some(value))
    }
}

/// The bytes for which an encoding has room at first. Most statements, transactions and effects fit, so they are never
/// moved.
const FIRST_ROOM: usize = 256;

/// The one encoding of a value.
#[tactic(auto)]
pub fn encode<T: Wire>(alloc: Global, value: &T) -> Result<Seq<u8>, OutOfMemory>
    requires { T.codec.short value.now }
    ensures { IfOk result (λ bytes. bytes ≡ T.codec.spell value.now) }
{
    let mut writer = Writer::with_room(alloc, FIRST_ROOM)?;
    value.write_into(&mut writer)?;
    Ok(writer.finish())
}

/// Reads one value from the start of what is left, or reports the first fault and stands there. If memory
/// is refused the reader stands where it stood, so the call may be made again.
pub fn read<T: Wire>(alloc: Global, reader: &mut Reader) -> Result<T, Unread>
    ensures exact { Gives reader.new result (T.codec.read reader.old) }
    ensures ahead { Ahead reader.old reader.new }
    ensures back { IsErrOf result unread.OutOfMemory → reader.new ≡ reader.old }
{
    let front = reader.mark();
    match T::read_from(alloc, reader) {
        Ok(value) => Ok(value),
        Err(Unread::Wire(fault)) => Err(Unread::Wire(fault)),
        Err(Unread::OutOfMemory) => {
            *reader = front;
            Err(Unread::OutOfMemory)
        }
    }
}

/// The value that all the bytes encode. A fault comes exactly if there is none, and is the first.
pub fn decode<T: Wire>(alloc: Global, bytes: &[u8]) -> Result<T, Unread>
    // The bytes are the encoding of the value, which is a value of its type.
    ensures found { IfOk result (λ x. (bytes.now ≡ T.codec.spell x) × T.codec.fits x) }
    // So it can be encoded again.
    ensures short { IfOk result T.codec.short }
    // A value that these bytes encode is read, unless memory runs out.
    ensures only { (x : _) → T.codec.fits x → bytes.now ≡ T.codec.spell x → Decodes bytes.now result (Ok x) }
    // Which fault it is.
    ensures exact { Decodes bytes.now result (whole T.codec bytes.now) }
{
    all_of(alloc, bytes)
}

#[tactic(auto, unfolding(crate::specs::Whole::whole))]
fn all_of<T: Wire>(alloc: Global, bytes: &[u8]) -> Result<T, Unread>
    ensures exact { Decodes bytes.now result (whole T.codec bytes.now) }
{
    let mut reader = Reader::new(bytes);
    let value = T::read_from(alloc, &mut reader)?;
    reader.finish()?;
    Ok(value)
}

/// What is encoded at a place is read there, whatever follows.
pub fn spelled_is_read<T: Wire>()
    ensures { (p : Place) (x : _) (rest : List ℕ) → T.codec.fits x → left p ≡ T.codec.spell x ++ rest → T.codec.read p ≡ Ok (x, forward (length (T.codec.spell x)) p) }
{}

/// What is read at a place is encoded there, up to the place after it.
pub fn read_is_spelled<T: Wire>()
    ensures { (p : Place) (x : _) (q : Place) → IsBytes p.input → T.codec.read p ≡ Ok (x, q) → Takes p (T.codec.spell x) q × T.codec.fits x }
{}

/// Each value has one encoding, no encoding is a prefix of another value's, and equal encodings are of
/// equal values.
pub fn one_spelling<T: Wire>()
    ensures { (x y : _) (r s : List ℕ) → T.codec.fits x → T.codec.fits y → T.codec.spell x ++ r ≡ T.codec.spell y ++ s → (x ≡ y) × (r ≡ s) }
{}
