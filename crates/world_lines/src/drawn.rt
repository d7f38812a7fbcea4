//! The ids that lines name or draw. An id costs a hash, so ids may wait, and are then made only when one is looked up.

ghost use Rattle.std.specs.Prelude.{◌≡◌, ◌<◌, ◌∷◌, ◌++◌, [], IfOk, OnOk, find, map};
ghost use Rattle.chain_types.specs.Equal.{digest_eq};
ghost use Rattle.protocol_spec.specs.Chain.Words.{numbers_below};
ghost use Rattle.world_lines.specs.Drawn.{all_rows, line_rows, row_as, word_row};
ghost use Rattle.world_lines.specs.Pushed.{each_pushed};
ghost use Rattle.world_lines.specs.declared.rows.DrawnRow.{DrawnRow as Row};

use crate::rows::DrawnRow;
use digest_core::Digest;
use std::alloc::Global;
use std::marker::Model;
use tables::Table;
use wire_bcs::OutOfMemory;

/// A word like `T.3`: the object that a transaction creates under a number.
#[derive(Clone, Copy, Debug)]
pub(crate) struct DrawnWord {
    pub(crate) tx: Digest,
    pub(crate) number: u64,
}

/// The ids of a line: those of its words, and those of the first creation numbers of its transaction.
#[derive(Drop)]
pub(crate) struct LineIds {
    pub(crate) words: Vec<DrawnWord>,
    pub(crate) tx: Digest,
    pub(crate) count: usize,
}

/// The ids of lines, in the order of the lines. Contracts see their rows, and for how many more lines there is room.
#[derive(Drop)]
pub(crate) struct DrawnIds {
    made: Table<DrawnRow>,
    waiting: Vec<LineIds>,
    waits: bool,
    alloc: Global,
}

impl Model for DrawnIds {
    ghost use Rattle.std.specs.Prelude.{◌-◌};
    ghost use Rattle.std.specs.Vec.{vec_capacity, vec_len};
    ghost use Rattle.tables.specs.Tables.{Rows};
    ghost use Rattle.world_lines.specs.Drawn.{all_rows};
    ghost use Rattle.world_lines.specs.declared.rows.DrawnRow.{DrawnRow as Row};

    ghost Value = { Rows Row };

    ghost view = { λ d. record { rows = all_rows d.made.rows d.waiting.items; room = vec_capacity d.waiting - vec_len d.waiting } };
}

/// Adds the row of a transaction's creation number, with its id.
fn add_row(rows: &mut Vec<DrawnRow>, tx: &Digest, number: u64) -> Result<(), OutOfMemory>
    ensures { OnOk result (rows.new.items ≡ rows.old.items ++ row_as tx.now number ∷ []) }
{
    rows.push(DrawnRow::new(tx, number))?;
    Ok(())
}

/// Adds the ids of words.
fn add_words(rows: &mut Vec<DrawnRow>, words: &[DrawnWord]) -> Result<(), OutOfMemory>
    ensures { OnOk result (rows.new.items ≡ each_pushed word_row rows.old.items words.now) }
{
    for word in words {
        add_row(rows, &word.tx, word.number)?;
    }
    Ok(())
}

/// Adds the ids of the first creation numbers of a transaction.
#[tactic(auto, using(crate::proofs::DrawnRows::no_number, crate::proofs::DrawnRows::one_number))]
fn add_numbers(rows: &mut Vec<DrawnRow>, tx: &Digest, count: usize) -> Result<(), OutOfMemory>
    ensures { OnOk result (rows.new.items ≡ rows.old.items ++ map (row_as tx.now) (numbers_below count)) }
{
    for number in 0..count {
        add_row(rows, tx, number as u64)?;
    }
    Ok(())
}

/// Adds the ids of a line.
#[tactic(auto, using(crate::proofs::DrawnRows::line_added))]
fn add_line(rows: &mut Vec<DrawnRow>, ids: &LineIds) -> Result<(), OutOfMemory>
    ensures { OnOk result (rows.new.items ≡ rows.old.items ++ line_rows ids.now) }
{
    add_words(rows, ids.words.as_slice())?;
    add_numbers(rows, &ids.tx, ids.count)
}

/// Adds the rows of lines, in their order.
fn add_lines(rows: &mut Vec<DrawnRow>, lines: &[LineIds]) -> Result<(), OutOfMemory>
    ensures { OnOk result (rows.new.items ≡ all_rows rows.old.items lines.now) }
{
    for ids in lines {
        add_line(rows, ids)?;
    }
    Ok(())
}

/// The rows of lines, in their order.
fn rows_of(alloc: Global, lines: &[LineIds]) -> Result<Vec<DrawnRow>, OutOfMemory>
    ensures { IfOk result (λ rows. rows.items ≡ all_rows [] lines.now) }
{
    let mut rows = Vec::new(alloc);
    add_lines(&mut rows, lines)?;
    Ok(rows)
}

/// The first row of an id among those of waiting lines; makes all their rows, and throws them away afterwards.
fn find_among(
    alloc: Global,
    lines: &[LineIds],
    id: &Digest,
) -> Result<Option<DrawnRow>, OutOfMemory>
    ensures { IfOk result (λ row. row ≡ find (λ (r : Row). digest_eq id.now r.id.0) (all_rows [] lines.now)) }
{
    let rows = rows_of(alloc, lines)?;
    let mut table = Table::new(alloc);
    table.make_room(rows.as_slice().len())?;
    table.add_all(rows);
    let found = table.find(id).copied();
    Ok(found)
}

impl DrawnIds {
    /// No ids, and none that will wait. Takes no memory.
    pub(crate) fn new(alloc: Global) -> DrawnIds
        ensures { result.rows ≡ [] }
    {
        DrawnIds {
            made: Table::new(alloc),
            waiting: Vec::new(alloc),
            waits: false,
            alloc,
        }
    }

    /// The first row of an id; none exactly if no row has it. An id that is not among those already made costs the
    /// making of all that wait, and the memory for them.
    pub(crate) fn find(&self, id: &Digest) -> Result<Option<DrawnRow>, OutOfMemory>
        ensures { IfOk result (λ row. row ≡ find (λ (r : Row). digest_eq id.now r.id.0) self.now.rows) }
    {
        match self.made.find(id) {
            Some(row) => Ok(Some(*row)),
            None => find_among(self.alloc, self.waiting.as_slice(), id),
        }
    }

    /// Makes room for one more line. The rows stay, whatever the result.
    pub(crate) fn make_room(&mut self) -> Result<(), OutOfMemory>
        ensures rows { self.new.rows ≡ self.old.rows }
        ensures room { OnOk result (0 < self.new.room) }
    {
        self.waiting.reserve(1)?;
        Ok(())
    }

    /// Adds a line, for which there is room; its ids wait.
    #[tactic(auto, using(crate::proofs::DrawnRows::line_pushed))]
    fn push(&mut self, ids: LineIds)
        requires { 0 < self.old.room }
        ensures { self.new.rows ≡ self.old.rows ++ line_rows ids }
    {
        match self.waiting.push(ids) {
            Ok(()) => {}
            Err(_) => unreachable!(),
        }
    }

    /// Makes the rows of the lines that wait, which then wait no longer. A refusal changes nothing.
    #[tactic(auto, using(crate::proofs::DrawnRows::all_behind))]
    fn make(&mut self) -> Result<(), OutOfMemory>
        ensures { self.new.rows ≡ self.old.rows }
    {
        let rows = rows_of(self.alloc, self.waiting.as_slice())?;
        self.made.make_room(rows.as_slice().len())?;
        self.made.add_all(rows);
        self.waiting.clear();
        Ok(())
    }

    /// Makes the ids that wait, and lets none wait from now on. If memory is refused they go on waiting until the next
    /// line.
    pub(crate) fn settle(&mut self)
        ensures { self.new.rows ≡ self.old.rows }
    {
        self.waits = false;
        match self.make() {
            Ok(()) | Err(OutOfMemory) => {}
        }
    }

    /// Lets ids wait from now on, until a line has a word that names one, or [`DrawnIds::settle`]. Takes no memory.
    pub(crate) fn wait(&mut self)
        ensures { self.new.rows ≡ self.old.rows }
    {
        self.waits = true;
    }

    /// Adds a line, for which there is room.
    pub(crate) fn add(&mut self, ids: LineIds)
        requires { 0 < self.old.room }
        ensures { self.new.rows ≡ self.old.rows ++ line_rows ids }
    {
        let waits = self.waits && ids.words.as_slice().is_empty();
        self.push(ids);
        if !waits {
            self.settle();
        }
    }
}
