//! The places of a block with what they hold: the gas coin, the inputs, and the results of each command.

ghost use Rattle.std.specs.Prelude.{◌≡◌, ◌+◌, ◌∷◌, ◌++◌, [], length, slice_set, MatchResult, IfOk, OnOk};
ghost use Rattle.std.specs.List.{list_any};
ghost use Rattle.protocol_spec.specs.Block.Block.{value_in, put_in, result_count};
ghost use Rattle.protocol_spec.specs.Block.Execution.{is_unused};
ghost use Rattle.ptb_run.specs.Values.{spot_of, held};
ghost use Rattle.ptb_run.specs.Slots.{cell_of, is_row_left, seen, slots_of, result_row};

use crate::value::{Spot, Value};
use std::alloc::Global;
use wire_bcs::{OutOfMemory, Seq};

/// What the places of a block hold; none if the value is spent.
#[derive(Drop)]
pub(crate) struct Slots {
    pub(crate) gas: Option<Value>,
    pub(crate) inputs: Seq<Option<Value>>,
    pub(crate) results: Vec<Seq<Option<Value>>>,
}

/// What the place of this number in a row holds.
fn cell(row: &[Option<Value>], number: u16) -> Option<&Value>
    ensures { seen result ≡ cell_of row.now number }
{
    match row.get(number as usize) {
        Some(value) => value.as_ref(),
        None => None,
    }
}

/// Puts a value into the place of this number in a row, if there is one.
fn put_cell(row: &mut Seq<Option<Value>>, number: u16, value: Option<Value>)
    ensures { row.new ≡ slice_set row.old number value }
{
    if u64::from(number) < row.len() {
        let _before = row.set(u64::from(number), value);
    }
}

impl Slots {
    /// The value in a place, none if it is spent or there is no such place.
    #[tactic(auto, using(crate::proofs::Reading::gas_in, crate::proofs::Reading::input_in))]
    pub(crate) fn at(&self, spot: Spot) -> Option<&Value>
        ensures { seen result ≡ value_in (spot_of spot) (slots_of self.now) }
    {
        match spot {
            Spot::Gas => self.gas.as_ref(),
            Spot::Input(number) => cell(self.inputs.as_slice(), number),
            Spot::Result(command, number) => match self.results.get(command as usize) {
                Some(row) => cell(row.as_slice(), number),
                None => None,
            },
        }
    }

    /// Puts a value into a place, or spends the place; nothing happens if there is no such place.
    #[tactic(auto, using(crate::proofs::Writing::gas_put, crate::proofs::Writing::input_put, crate::proofs::Writing::no_result_put))]
    pub(crate) fn put(&mut self, spot: Spot, value: Option<Value>)
        ensures after { slots_of self.new ≡ put_in (spot_of spot) (held value) (slots_of self.old) }
        ensures rows { length self.new.results.items ≡ length self.old.results.items }
    {
        match spot {
            Spot::Gas => self.gas = value,
            Spot::Input(number) => put_cell(&mut self.inputs, number, value),
            Spot::Result(command, number) => {
                if (command as usize) < self.results.len() {
                    put_cell(&mut self.results[command as usize], number, value);
                }
            }
        }
    }

    /// How many results the command of this number gave.
    pub(crate) fn result_count(&self, command: u16) -> u64
        ensures { result ≡ result_count command (slots_of self.now) }
    {
        match self.results.get(command as usize) {
            Some(row) => row.len(),
            None => 0,
        }
    }

    /// Adds the results of the next command.
    #[tactic(auto, using(crate::proofs::Adding::row_added))]
    pub(crate) fn add_results(&mut self, row: Seq<Option<Value>>) -> Result<(), OutOfMemory>
        ensures after { OnOk result (slots_of self.new ≡ slots_of self.old ++ result_row (length self.old.results.items) 0 row) }
        ensures rows { OnOk result (length self.new.results.items ≡ length self.old.results.items + 1) }
    {
        self.results.push(row)?;
        Ok(())
    }

    /// Whether a result place still holds a value.
    #[tactic(auto, using(crate::proofs::Unused::unused_is))]
    pub(crate) fn any_unused(&self) -> bool
        ensures { result ≡ list_any is_unused (slots_of self.now) }
    {
        any_row_left(self.results.as_slice())
    }
}

/// Whether a place of the row still holds a value.
fn is_row_left(row: &Seq<Option<Value>>) -> bool
    ensures { result ≡ is_row_left row.now }
{
    for value in row.as_slice() {
        if value.is_some() {
            return true;
        }
    }
    false
}

/// Whether a place of one of the rows still holds a value.
fn any_row_left(rows: &[Seq<Option<Value>>]) -> bool
    ensures { result ≡ list_any is_row_left rows.now }
{
    for row in rows {
        if is_row_left(row) {
            return true;
        }
    }
    false
}
