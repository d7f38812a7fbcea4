//! What is known of each shared object that a certificate named.

ghost use Rattle.std.specs.Prelude.{◌≡◌, ◌<◌, ◌^◌, ◌-◌, [], IfOk, OnOk, Some, true, false, filter, filter_map, fold, is_some, length, map, zip};
ghost use Rattle.std.specs.Map.{lookup};
ghost use Rattle.indexmap.specs.IndexMap.{insert_entry};
ghost use Rattle.chain_types.specs.declared.objects.ObjectId.{ObjectId as Id};
ghost use Rattle.chain_types.specs.Equal.{id_eq};
ghost use Rattle.version_assign.specs.Lines.{are_lined, clear_all, clear_one, cleared, filled, has_line, line_at, move_all, move_one, moved, no_line, one_more, standing_as};

use chain_types::{ObjectId, Producer};
use digest_core::Digest;
use indexmap::IndexMap;
use protocol_spec::Assigned;
use wire_bcs::OutOfMemory;

/// The current version of a shared object and who wrote it, once an admitted transaction named the object; and how
/// many wrote it since the last mark.
#[derive(Clone, Copy)]
pub(crate) struct Line {
    pub(crate) standing: Option<(u64, Producer)>,
    pub(crate) writers: u32,
}

/// What is known of an object.
pub(crate) fn line_at(lines: &IndexMap<ObjectId, Line>, id: &ObjectId) -> Line
    ensures { result ≡ line_at lines.now.entries id.now }
{
    match lines.get(id) {
        Some(line) => *line,
        None => Line {
            standing: None,
            writers: 0,
        },
    }
}

/// Makes a place for an object, of which nothing is known yet. What is known stays, whatever the result.
pub(crate) fn make_line(
    lines: &mut IndexMap<ObjectId, Line>,
    id: ObjectId,
) -> Result<(), OutOfMemory>
    ensures same { (q : Id) → line_at lines.new.entries q ≡ line_at lines.old.entries q }
    ensures kept { (q : Id) → has_line lines.old.entries q ≡ true → has_line lines.new.entries q ≡ true }
    ensures made { OnOk result (has_line lines.new.entries id ≡ true) }
{
    if lines.contains_key(&id) {
        return Ok(());
    }
    let line = Line {
        standing: None,
        writers: 0,
    };
    lines.insert(id, line)?;
    Ok(())
}

/// Makes a place for each of these objects. What is known stays, whatever the result.
pub(crate) fn make_lines(
    lines: &mut IndexMap<ObjectId, Line>,
    assigned: &[Assigned],
) -> Result<(), OutOfMemory>
    ensures same { (q : Id) → line_at lines.new.entries q ≡ line_at lines.old.entries q }
    ensures kept { (q : Id) → has_line lines.old.entries q ≡ true → has_line lines.new.entries q ≡ true }
    ensures made { OnOk result (are_lined lines.new.entries assigned.now ≡ true) }
{
    let mut rest = assigned;
    while let [one, after @ ..] = rest {
        make_line(lines, one.id)?;
        rest = after;
    }
    Ok(())
}

/// Replaces the line of an object that has one.
fn set_line(lines: &mut IndexMap<ObjectId, Line>, id: ObjectId, line: Line)
    requires { has_line lines.old.entries id ≡ true }
    ensures { lines.new.entries ≡ insert_entry id_eq lines.old.entries id line }
{
    match lines.insert(id, line) {
        Ok(_) => {}
        Err(_) => unreachable!(),
    }
}

/// One more writer; at 2^32 - 1 the count stays.
fn one_more(writers: u32) -> u32
    ensures { result ≡ one_more writers }
{
    if writers < 4294967295 {
        writers + 1
    } else {
        writers
    }
}

/// What is known of an object after a transaction that was assigned this version of it.
fn moved(version: u64, tx: Digest, one: &Assigned, line: Line) -> Line
    ensures { result ≡ moved one.now.mutable version tx one.now line }
{
    if one.mutable {
        return Line {
            standing: Some((version, Producer::Tx(tx))),
            writers: one_more(line.writers),
        };
    }
    Line {
        standing: Some((one.version, one.writer)),
        writers: line.writers,
    }
}

/// Moves one of the objects of an admitted transaction.
fn move_line(lines: &mut IndexMap<ObjectId, Line>, one: &Assigned, version: u64, tx: Digest)
    requires { has_line lines.old.entries one.now.id ≡ true }
    ensures { lines.new.entries ≡ move_one version tx lines.old.entries one.now }
{
    let line = moved(version, tx, one, line_at(lines, &one.id));
    set_line(lines, one.id, line);
}

/// Moves the objects of an admitted transaction: what it writes stands at its version.
pub(crate) fn move_lines(
    lines: &mut IndexMap<ObjectId, Line>,
    assigned: &[Assigned],
    version: u64,
    tx: Digest,
)
    requires { are_lined lines.old.entries assigned.now ≡ true }
    ensures { lines.new.entries ≡ move_all version tx lines.old.entries assigned.now }
{
    let mut rest = assigned;
    while let [one, after @ ..] = rest {
        move_line(lines, one, version, tx);
        rest = after;
    }
}

/// Forgets the writers of an object.
fn clear_line(lines: &mut IndexMap<ObjectId, Line>, one: &Assigned)
    requires { has_line lines.old.entries one.now.id ≡ true }
    ensures { lines.new.entries ≡ clear_one lines.old.entries one.now }
{
    let line = line_at(lines, &one.id);
    let cleared = Line {
        standing: line.standing,
        writers: 0,
    };
    set_line(lines, one.id, cleared);
}

/// Forgets the writers of these objects.
pub(crate) fn clear_lines(lines: &mut IndexMap<ObjectId, Line>, assigned: &[Assigned])
    requires { are_lined lines.old.entries assigned.now ≡ true }
    ensures { lines.new.entries ≡ clear_all lines.old.entries assigned.now }
{
    let mut rest = assigned;
    while let [one, after @ ..] = rest {
        clear_line(lines, one);
        rest = after;
    }
}

/// The current version of an object and its writer, if there is one, in place of this one.
fn filled(lines: &IndexMap<ObjectId, Line>, one: Assigned) -> Assigned
    ensures { result ≡ filled lines.now.entries one }
{
    match line_at(lines, &one.id).standing {
        Some((version, writer)) => Assigned {
            id: one.id,
            version,
            writer,
            mutable: one.mutable,
        },
        None => one,
    }
}

/// Puts the current versions into a transaction's shared inputs.
pub(crate) fn fill(lines: &IndexMap<ObjectId, Line>, assigned: &mut [Assigned])
    ensures { assigned.new ≡ map (filled lines.now.entries) assigned.old }
{
    for i in 0..assigned.len() {
        assigned[i] = filled(lines, assigned[i]);
    }
}
