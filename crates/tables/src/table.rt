//! Lists whose rows are found by a digest, without a scan.

ghost use Rattle.std.specs.Prelude.{◌≡◌, ◌+◌, ◌<◌, ◌≤◌, [], ◌∷◌, ◌++◌, OnOk, find, length, option_copied, position, slice_get};
ghost use Rattle.digest_core.specs.declared.Digest.{Digest as Key};
ghost use Rattle.indexmap.specs.IndexMap.{spare};
ghost use Rattle.tables.specs.Tables.{same_digest, with_place};

use crate::insert_in_room;
use digest_core::Digest;
use indexmap::IndexMap;
use std::alloc::Global;
use std::marker::Model;
use wire_bcs::OutOfMemory;

/// A row with a digest, by which it is found.
pub trait Keyed {
    ghost key_of: { Self → Key };

    /// The digest. Takes no memory.
    fn key(&self) -> Digest
        ensures { result ≡ key_of self.now };
}

/// Rows in the order in which they came, and the place of the first of each digest. Contracts see the rows,
/// and for how many more there is room.
#[derive(Drop)]
pub struct Table<T: Keyed> {
    list: Vec<T>,
    places: IndexMap<Digest, usize>,
}

impl<T: Keyed> Model for Table<T> {
    ghost use Rattle.std.specs.Prelude.{ℕ, ◌-◌, min};
    ghost use Rattle.std.specs.Vec.{vec_capacity, vec_len};
    ghost use Rattle.indexmap.specs.IndexMap.{spare};
    ghost use Rattle.tables.specs.Tables.{Placed, Rows, same_digest};

    ghost Value = { Rows T };

    ghost view = { λ t. record { rows = t.list.items; room = min (vec_capacity t.list - vec_len t.list) (spare t.places) } };

    ghost invariant = { λ t. Placed same_digest T.key_of t.list.items t.places.entries };
}

/// Puts a place under a digest, unless one is there; there is room.
fn add_place(places: &mut IndexMap<Digest, usize>, key: Digest, place: usize)
    requires { 0 < spare places.old }
    ensures entries { places.new.entries ≡ with_place same_digest places.old.entries key place }
    ensures room { spare places.old ≤ spare places.new + 1 }
{
    if !places.contains_key(&key) {
        insert_in_room(places, key, place);
    }
}

/// The row at a place; none exactly if the list is too short.
pub(crate) fn row_at<T>(rows: &[T], place: usize) -> Option<&T>
    ensures { option_copied result ≡ slice_get rows.now place }
{
    rows.get(place)
}

impl<T: Keyed + Drop> Table<T> {
    /// No rows. Takes no memory.
    pub fn new(alloc: Global) -> Table<T>
        ensures { result.rows ≡ [] }
    {
        Table {
            list: Vec::new(alloc),
            places: IndexMap::new(alloc),
        }
    }

    /// The rows, lent. Takes no memory.
    pub fn rows(&self) -> &[T]
        ensures { result.now ≡ self.now.rows }
    {
        self.list.as_slice()
    }

    /// The place of the first row with this digest; none exactly if no row has it. Takes no memory.
    pub fn place_of(&self, key: &Digest) -> Option<usize>
        ensures { result ≡ position (λ row. same_digest key.now (T.key_of row)) self.now.rows }
    {
        self.places.get(key).copied()
    }

    /// The first row with this digest; none exactly if no row has it. Takes no memory.
    pub fn find(&self, key: &Digest) -> Option<&T>
        ensures { option_copied result ≡ find (λ row. same_digest key.now (T.key_of row)) self.now.rows }
    {
        match self.place_of(key) {
            Some(place) => row_at(self.rows(), place),
            None => None,
        }
    }

    /// Makes room for so many more rows. The rows stay, whatever the result.
    pub fn make_room(&mut self, count: usize) -> Result<(), OutOfMemory>
        ensures rows { self.new.rows ≡ self.old.rows }
        ensures room { OnOk result (count ≤ self.new.room) }
    {
        self.list.reserve(count)?;
        self.places.reserve(count)?;
        Ok(())
    }

    /// Adds a row, for which there is room.
    pub fn add(&mut self, row: T)
        requires { 0 < self.old.room }
        ensures rows { self.new.rows ≡ self.old.rows ++ row ∷ [] }
        ensures room { self.old.room ≤ self.new.room + 1 }
    {
        add_place(&mut self.places, row.key(), self.list.as_slice().len());
        match self.list.push(row) {
            Ok(()) => {}
            Err(_) => unreachable!(),
        }
    }

    /// Adds rows, for which there is room.
    pub fn add_all(&mut self, rows: Vec<T>)
        requires { length rows.items ≤ self.old.room }
        ensures { self.new.rows ≡ self.old.rows ++ rows.items }
    {
        for row in rows {
            self.add(row);
        }
    }
}
