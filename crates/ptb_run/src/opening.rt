//! The block before its first command.

ghost use Rattle.std.specs.Prelude.{◌≡◌, ◌∷◌, [], IfOk};
ghost use Rattle.protocol_spec.specs.Block.Execution.{first_block, gas_item, item_of};
ghost use Rattle.ptb_run.specs.Blocks.{block_of, rows_of};
ghost use Rattle.ptb_run.specs.Opening.{cells_after};

use crate::block::Block;
use crate::drawn::DrawnIds;
use crate::slots::Slots;
use crate::value::Value;
use chain_types::{Input, Object, Transaction};
use digest_core::Digest;
use native_calls::contents::{amount_of, with_amount};
use protocol_spec::Item;
use std::alloc::Global;
use wire_bcs::{OutOfMemory, Seq};

/// An object as it stands in its place.
fn item_of(object: &Object) -> Item
    ensures { result ≡ item_of object.now }
{
    Item {
        id: object.id,
        content: object.content,
        fresh: false,
    }
}

/// The gas coin, which shows its balance less the budget.
fn gas_item(tx: &Transaction, object: &Object) -> Item
    ensures { result ≡ gas_item tx.now object.now }
{
    let shown = amount_of(&object.content).saturating_sub(tx.budget);
    Item {
        id: object.id,
        content: with_amount(shown, &object.content),
        fresh: false,
    }
}

/// What the places of the inputs hold: their bytes, or their objects in order.
fn input_cells(
    alloc: Global,
    inputs: &[Input],
    objects: &[Object],
) -> Result<Seq<Option<Value>>, OutOfMemory>
    ensures { IfOk result (λ cells. cells ≡ cells_after [] inputs.now objects.now) }
{
    let mut cells = Seq::with_room(alloc, inputs.len() as u64)?;
    let mut left = inputs;
    let mut rest = objects;
    while let [input, after @ ..] = left {
        match input {
            Input::Pure(bytes) => {
                cells.push(Some(Value::Pure(Seq::from_slice(alloc, bytes.as_slice())?)))?;
            }
            Input::Owned(_) | Input::Immutable(_) | Input::Shared { .. } => {
                let [object, others @ ..] = rest else {
                    return Ok(cells);
                };
                cells.push(Some(Value::Object(item_of(object))))?;
                rest = others;
            }
        }
        left = after;
    }
    Ok(cells)
}

/// The block before the first command, on its gas coin and the objects of its inputs; `digest` is the transaction's.
#[tactic(auto, using(crate::proofs::Openings::opened, crate::proofs::Openings::no_rows))]
pub(crate) fn first_block(
    alloc: Global,
    tx: &Transaction,
    digest: &Digest,
    gas: &Object,
    others: &[Object],
) -> Result<Block, OutOfMemory>
    ensures opened { IfOk result (λ b. block_of b ≡ first_block tx.now (gas.now ∷ others.now)) }
    ensures rows { IfOk result (λ b. rows_of b ≡ 0) }
{
    let results = Vec::with_capacity(alloc, tx.commands.len() as usize)?;
    let inputs = input_cells(alloc, tx.inputs.as_slice(), others)?;
    Ok(Block {
        slots: Slots {
            gas: Some(Value::Object(gas_item(tx, gas))),
            inputs,
            results,
        },
        placed: Seq::new(alloc),
        made: 0,
        drawn: DrawnIds::new(alloc, digest),
    })
}
