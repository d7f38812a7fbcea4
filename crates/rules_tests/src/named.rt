//! Tables of names and of rows: the first of each counts.

ghost use Rattle.std.specs.Prelude.{◌≡◌};

use crate::same::{holds, same};
use digest_core::Digest;
use std::process::Abort;
use tables::{FirstNames, Keyed, NameMap, Named, NamedTable};
use wire_bcs::OutOfMemory;

/// Adds three values, of two names.
fn add_values(values: &mut NameMap<i32>) -> Result<(), OutOfMemory> {
    values.add(b"a".as_slice(), 1)?;
    values.add(b"b".as_slice(), 2)?;
    values.add(b"a".as_slice(), 3)
}

/// Tests which values a map has, empty at first.
fn expect_values(rt: &impl Abort, values: &mut NameMap<i32>) -> Result<(), OutOfMemory> {
    holds(rt, values.is_empty());
    add_values(values)?;
    same(rt, values.len(), 2);
    same(rt, values.get(b"a".as_slice()), Some(&1));
    same(rt, values.get(b"c".as_slice()), None);
    holds(rt, values.has(b"b".as_slice()));
    Ok(())
}

#[test]
fn keeps_the_first_value_of_a_name(rt: HostRuntime) {
    let mut values = NameMap::new(rt.alloc());
    let said = expect_values(&rt, &mut values);
    drop(values);
    same(&rt, said, Ok(()));
}

/// Tests that a thing keeps its first name, and that one without a name is `?`.
fn expect_names(rt: &impl Abort, names: &mut FirstNames<i32>) -> Result<(), OutOfMemory> {
    names.add(7, b"seven".as_slice())?;
    names.add(7, b"sept".as_slice())?;
    names.add(8, b"seven".as_slice())?;
    same(rt, names.name_of(&7), b"seven".as_slice());
    same(rt, names.name_of(&8), b"seven".as_slice());
    same(rt, names.name_of(&9), b"?".as_slice());
    Ok(())
}

#[test]
fn keeps_the_first_name_of_a_thing(rt: HostRuntime) {
    let mut names = FirstNames::new(rt.alloc());
    let said = expect_names(&rt, &mut names);
    drop(names);
    same(&rt, said, Ok(()));
}

/// A row of a digest and a name.
#[derive(Clone, Copy, Debug, PartialEq, Eq)]
struct Row {
    key: Digest,
    name: [u8; 1],
}

impl Keyed for Row {
    ghost key_of = { λ r. r.key };

    fn key(&self) -> Digest {
        self.key
    }
}

impl Named for Row {
    ghost name_of = { λ r. r.name };

    fn name(&self) -> &[u8] {
        self.name.as_slice()
    }
}

fn row_of(byte: u8, name: u8) -> Row {
    Row {
        key: Digest([byte; 32]),
        name: [name],
    }
}

/// Tests that the first row of a digest and of a name is found, and no other.
fn expect_rows(rt: &impl Abort, table: &mut NamedTable<Row>) -> Result<(), OutOfMemory> {
    table.add(row_of(1, b'a'))?;
    same(rt, table.find(&Digest([2; 32])).copied(), None);
    same(rt, table.place_of(&Digest([2; 32])), None);
    same(rt, table.named(b"b".as_slice()).copied(), None);
    table.add(row_of(2, b'a'))?;
    table.add(row_of(1, b'b'))?;
    same(rt, table.len(), 3);
    same(rt, table.place_of(&Digest([2; 32])), Some(1));
    same(
        rt,
        table.find(&Digest([1; 32])).copied(),
        Some(row_of(1, b'a')),
    );
    same(
        rt,
        table.named(b"b".as_slice()).copied(),
        Some(row_of(1, b'b')),
    );
    same(
        rt,
        table.named(b"a".as_slice()).copied(),
        Some(row_of(1, b'a')),
    );
    Ok(())
}

#[test]
fn finds_the_first_row(rt: HostRuntime) {
    let mut table = NamedTable::new(rt.alloc());
    let said = expect_rows(&rt, &mut table);
    drop(table);
    same(&rt, said, Ok(()));
}
