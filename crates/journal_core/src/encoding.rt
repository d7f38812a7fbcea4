//! Records of what is encoded already.

ghost use Rattle.std.specs.Prelude.{◌≡◌, ◌<◌, IfOk, length};
ghost use Rattle.wire_bcs.specs.Items.{length_limit};
ghost use Rattle.wire_bcs.specs.Wrote.{Writes};
ghost use Rattle.journal_core.specs.Records as codecs;
ghost use Rattle.journal_core.specs.declared.records.Record.TheVariants as records;
ghost use Rattle.journal_core.specs.Encoded.{IsEncodedIn};

use crate::records::Record;
use std::alloc::Global;
use wire_bcs::{OutOfMemory, Seq, Wire, Writer};

/// Room, in bytes, for what a record has besides its payload: its number, and a length.
const FRAME: usize = 64;

/// Writes a record. These bytes encode the transaction of a Vote, or the certificate of a Hold; other records do not
/// use them.
#[tactic(auto, using(wire_bcs::specs::Wrote::parts), unfolding(crate::specs::Records::journal_record))]
fn write_record(writer: &mut Writer, kept: &Record, encoded: &[u8]) -> Result<(), OutOfMemory>
    requires short { codecs.journal_record.short kept.now }
    requires encoded { IsEncodedIn kept.now encoded.now }
    ensures { Writes writer.old writer.new (codecs.journal_record.spell kept.now) result }
{
    match kept {
        Record::Vote { origins, .. } => {
            writer.put_tag(0)?;
            writer.put_fixed(encoded)?;
            origins.write_into(writer)?;
            Ok(())
        }
        Record::Hold(_) => {
            writer.put_tag(1)?;
            writer.put_fixed(encoded)?;
            Ok(())
        }
        Record::See(_) | Record::Close | Record::Ran(_) | Record::Turn | Record::Ran2(_) =>
            kept.write_into(writer),
    }
}

/// The one encoding of a record. The bytes encode the transaction of a Vote, or the certificate of a Hold, and are
/// copied into it; other records do not use them. The record's lists are at most 2147483647 long.
pub fn encode_record_with(
    alloc: Global,
    kept: &Record,
    encoded: &[u8],
) -> Result<Seq<u8>, OutOfMemory>
    requires short { codecs.journal_record.short kept.now }
    requires encoded { IsEncodedIn kept.now encoded.now }
    ensures { IfOk result (λ bytes. bytes ≡ codecs.journal_record.spell kept.now) }
{
    let mut writer = Writer::with_room(alloc, encoded.len().saturating_add(FRAME))?;
    write_record(&mut writer, kept, encoded)?;
    Ok(writer.finish())
}

#[tactic(auto, using(wire_bcs::specs::Wrote::parts), unfolding(crate::specs::Records::journal_record))]
fn write_see(writer: &mut Writer, entry: &[u8]) -> Result<(), OutOfMemory>
    requires { length entry.now < length_limit }
    ensures { Writes writer.old writer.new (codecs.journal_record.spell (records.See entry.now)) result }
{
    writer.put_tag(2)?;
    writer.put_bytes(entry)?;
    Ok(())
}

/// The one encoding of the record of an entry's bytes, fewer than 2^31.
pub fn encode_see(alloc: Global, entry: &[u8]) -> Result<Seq<u8>, OutOfMemory>
    requires { length entry.now < length_limit }
    ensures { IfOk result (λ bytes. bytes ≡ codecs.journal_record.spell (records.See entry.now)) }
{
    let mut writer = Writer::with_room(alloc, entry.len().saturating_add(FRAME))?;
    write_see(&mut writer, entry)?;
    Ok(writer.finish())
}
