//! Lists whose rows are found by a digest or by a name, without a scan.

ghost use Rattle.std.specs.Prelude.{◌≡◌, ℕ, List, [], ◌∷◌, ◌++◌, OnOk, OnErr, bytes_eq, find, length, option_copied, position, slice_get};
ghost use Rattle.tables.specs.Tables.{same_digest};

use crate::NameMap;
use crate::table::{Keyed, Table, row_at};
use digest_core::Digest;
use std::alloc::Global;
use std::marker::Model;
use wire_bcs::OutOfMemory;

/// A row that is found by a name as well as by a digest.
pub trait Named: Keyed {
    ghost name_of: { Self → List ℕ };

    /// The name. Takes no memory.
    fn name(&self) -> &[u8]
        ensures { result.now ≡ name_of self.now };
}

/// Rows that are found by their digest or by their name. Contracts see the rows.
#[derive(Drop)]
pub struct NamedTable<T: Named> {
    table: Table<T>,
    names: NameMap<usize>,
}

impl<T: Named> Model for NamedTable<T> {
    ghost use Rattle.std.specs.Prelude.{List, bytes_eq};
    ghost use Rattle.tables.specs.Tables.{Placed};

    ghost Value = { List T };

    ghost view = { λ t. t.table.rows };

    ghost invariant = { λ t. Placed bytes_eq T.name_of t.table.rows t.names };
}

impl<T: Named + Drop> NamedTable<T> {
    /// No rows. Takes no memory.
    pub fn new(alloc: Global) -> NamedTable<T>
        ensures { result ≡ [] }
    {
        NamedTable {
            table: Table::new(alloc),
            names: NameMap::new(alloc),
        }
    }

    /// The row at this place, counted from 0; none exactly if there are fewer. Takes no memory.
    pub fn row(&self, place: usize) -> Option<&T>
        ensures { option_copied result ≡ slice_get self.now place }
    {
        row_at(self.table.rows(), place)
    }

    /// The number of rows. Takes no memory.
    pub fn len(&self) -> usize
        ensures { result ≡ length self.now }
    {
        self.table.rows().len()
    }

    /// The place of the first row with this digest; none exactly if no row has it. Takes no memory.
    pub fn place_of(&self, key: &Digest) -> Option<usize>
        ensures { result ≡ position (λ row. same_digest key.now (T.key_of row)) self.now }
    {
        self.table.place_of(key)
    }

    /// The first row with this digest; none exactly if no row has it. Takes no memory.
    pub fn find(&self, key: &Digest) -> Option<&T>
        ensures { option_copied result ≡ find (λ row. same_digest key.now (T.key_of row)) self.now }
    {
        self.table.find(key)
    }

    /// The place of the first row of this name; none exactly if no row has it. Takes no memory.
    fn place_named(&self, name: &[u8]) -> Option<usize>
        ensures { result ≡ position (λ row. bytes_eq name.now (T.name_of row)) self.now }
    {
        self.names.get(name).copied()
    }

    /// The first row of this name; none exactly if no row has it. Takes no memory.
    pub fn named(&self, name: &[u8]) -> Option<&T>
        ensures { option_copied result ≡ find (λ row. bytes_eq name.now (T.name_of row)) self.now }
    {
        match self.place_named(name) {
            Some(place) => row_at(self.table.rows(), place),
            None => None,
        }
    }

    /// Adds a row. A refusal changes nothing.
    pub fn add(&mut self, row: T) -> Result<(), OutOfMemory>
        ensures ok { OnOk result (self.new ≡ self.old ++ row ∷ []) }
        ensures err { OnErr result (self.new ≡ self.old) }
    {
        self.table.make_room(1)?;
        self.names.add(row.name(), self.table.rows().len())?;
        self.table.add(row);
        Ok(())
    }
}
