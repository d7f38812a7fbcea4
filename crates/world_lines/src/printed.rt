//! The names of objects and versions that are composed of several parts, as a report prints them.

ghost use Rattle.std.specs.Prelude.{◌≡◌, ◌∷◌, ◌++◌, IfOk, OnOk, decimal};
ghost use Rattle.world_spec.specs.Names.{key_name, object_name, tx_name};
ghost use Rattle.world_spec.specs.Known.{setting_with, world_with};

use crate::directory::Directory;
use crate::rows::DrawnRow;
use chain_types::{ObjectId, ObjectKey};
use itoa::Buffer;
use wire_bcs::{OutOfMemory, Seq};

/// Adds a number in decimal digits.
fn write_number(out: &mut Seq<u8>, number: u64) -> Result<(), OutOfMemory>
    ensures { OnOk result (out.new ≡ out.old ++ decimal number) }
{
    let mut buffer = Buffer::new();
    out.extend(buffer.format(number).as_bytes())
}

impl Directory {
    /// The name of a created object: its transaction's, a full stop and its number.
    fn created_name(&self, drawn: &DrawnRow) -> Result<Seq<u8>, OutOfMemory>
        ensures { IfOk result (λ name. name ≡ tx_name (world_with self.now) drawn.now.tx ++ 46 ∷ decimal drawn.now.number) }
    {
        let mut name = Seq::from_slice(self.alloc, self.tx_name(&drawn.tx))?;
        name.push(b'.')?;
        write_number(&mut name, drawn.number)?;
        Ok(name)
    }

    /// The name of an object: of the set-up's first thing with this id, else of the first that was drawn,
    /// else a question mark.
    pub fn object_name(&self, id: &ObjectId) -> Result<Seq<u8>, OutOfMemory>
        ensures { IfOk result (λ name. name ≡ object_name (setting_with self.now) (world_with self.now) id.now) }
    {
        match self.things.find(&id.0) {
            Some(thing) => Seq::from_slice(self.alloc, thing.name.as_slice()),
            None => {
                let drawn = self.drawn.find(&id.0)?;
                match drawn {
                    Some(row) => self.created_name(&row),
                    None => Seq::from_slice(self.alloc, b"?".as_slice()),
                }
            }
        }
    }

    /// The name of a version: the object's, an at sign and the version.
    pub(crate) fn key_name(&self, key: &ObjectKey) -> Result<Seq<u8>, OutOfMemory>
        ensures { IfOk result (λ name. name ≡ key_name (setting_with self.now) (world_with self.now) key.now) }
    {
        let mut name = self.object_name(&key.id)?;
        name.push(b'@')?;
        write_number(&mut name, key.version)?;
        Ok(name)
    }
}
