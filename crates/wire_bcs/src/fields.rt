//! Fields in order, and numbers and bools as fields.

ghost use Rattle.std.specs.Prelude.{◌++◌};
ghost use Rattle.wire_bcs.specs.Items.{number, bool_codec};
ghost use Rattle.wire_bcs.specs.Shapes.{pair};
ghost use Rattle.wire_bcs.specs.Uleb.{uleb};
ghost use Rattle.wire_bcs.specs.Wrote.{Writes};

use crate::fault::Unread;
use crate::reader::Reader;
use crate::seq::OutOfMemory;
use crate::wire::Wire;
use crate::writer::Writer;
use std::alloc::Global;

#[tactic(auto, using(crate::specs::Wrote::parts))]
impl Wire for u8 {
    ghost codec = { number 1 };

    fn write_into(&self, writer: &mut Writer) -> Result<(), OutOfMemory> {
        writer.put_u8(*self)
    }

    fn read_from(_alloc: Global, reader: &mut Reader) -> Result<Self, Unread> {
        Ok(reader.u8()?)
    }
}

#[tactic(auto, using(crate::specs::Wrote::parts))]
impl Wire for u16 {
    ghost codec = { number 2 };

    fn write_into(&self, writer: &mut Writer) -> Result<(), OutOfMemory> {
        writer.put_u16(*self)
    }

    fn read_from(_alloc: Global, reader: &mut Reader) -> Result<Self, Unread> {
        Ok(reader.u16()?)
    }
}

#[tactic(auto, using(crate::specs::Wrote::parts))]
impl Wire for u32 {
    ghost codec = { number 4 };

    fn write_into(&self, writer: &mut Writer) -> Result<(), OutOfMemory> {
        writer.put_u32(*self)
    }

    fn read_from(_alloc: Global, reader: &mut Reader) -> Result<Self, Unread> {
        Ok(reader.u32()?)
    }
}

#[tactic(auto, using(crate::specs::Wrote::parts))]
impl Wire for u64 {
    ghost codec = { number 8 };

    fn write_into(&self, writer: &mut Writer) -> Result<(), OutOfMemory> {
        writer.put_u64(*self)
    }

    fn read_from(_alloc: Global, reader: &mut Reader) -> Result<Self, Unread> {
        Ok(reader.u64()?)
    }
}

#[tactic(auto, using(crate::specs::Wrote::parts))]
impl Wire for bool {
    ghost codec = { bool_codec };

    fn write_into(&self, writer: &mut Writer) -> Result<(), OutOfMemory> {
        writer.put_bool(*self)
    }

    fn read_from(_alloc: Global, reader: &mut Reader) -> Result<Self, Unread> {
        Ok(reader.bool()?)
    }
}

/// Two fields in order; more of them are a pair of the first and the others.
#[tactic(auto, using(crate::specs::Wrote::parts))]
impl<A: Wire, B: Wire> Wire for (A, B) {
    ghost codec = { pair A.codec B.codec };

    fn write_into(&self, writer: &mut Writer) -> Result<(), OutOfMemory> {
        self.0.write_into(writer)?;
        self.1.write_into(writer)
    }

    fn read_from(alloc: Global, reader: &mut Reader) -> Result<Self, Unread> {
        let first = A::read_from(alloc, reader)?;
        let second = B::read_from(alloc, reader)?;
        Ok((first, second))
    }
}

/// Appends a variant number and the variant's one field.
#[tactic(auto, using(crate::specs::Wrote::parts))]
pub fn put_variant<A: Wire>(writer: &mut Writer, tag: u32, field: &A) -> Result<(), OutOfMemory>
    requires { A.codec.short field.now }
    ensures { Writes writer.old writer.new (uleb tag ++ A.codec.spell field.now) result }
{
    writer.put_tag(tag)?;
    field.write_into(writer)
}

/// Appends a variant number and the variant's two fields.
#[tactic(auto, using(crate::specs::Wrote::parts))]
pub fn put_variant_of_two<A: Wire, B: Wire>(
    writer: &mut Writer,
    tag: u32,
    first: &A,
    second: &B,
) -> Result<(), OutOfMemory>
    requires first { A.codec.short first.now }
    requires second { B.codec.short second.now }
    ensures { Writes writer.old writer.new (uleb tag ++ (A.codec.spell first.now ++ B.codec.spell second.now)) result }
{
    put_variant(writer, tag, first)?;
    second.write_into(writer)
}

/// Appends a variant number and the variant's three fields.
#[tactic(auto, using(crate::specs::Wrote::parts))]
pub fn put_variant_of_three<A: Wire, B: Wire, C: Wire>(
    writer: &mut Writer,
    tag: u32,
    first: &A,
    second: &B,
    third: &C,
) -> Result<(), OutOfMemory>
    requires first { A.codec.short first.now }
    requires second { B.codec.short second.now }
    requires third { C.codec.short third.now }
    ensures { Writes writer.old writer.new (uleb tag ++ (A.codec.spell first.now ++ (B.codec.spell second.now ++ C.codec.spell third.now))) result }
{
    put_variant_of_two(writer, tag, first, second)?;
    third.write_into(writer)
}
