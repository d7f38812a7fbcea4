//! The objects that a block writes, in order.

ghost use Rattle.std.specs.Prelude.{◌≡◌, ◌+◌, ◌≤◌, ◌∷◌, ◌++◌, [], IfOk, OnOk, if◌then◌else◌, length, map};
ghost use Rattle.protocol_spec.specs.Block.Execution.{is_written, written_places};
ghost use Rattle.ptb_run.specs.Written.{moved_after, moved_of};

use crate::value::Spot;
use chain_types::{Input, Object, Transaction};
use std::alloc::Global;
use wire_bcs::{OutOfMemory, Seq};

/// An object that is written, with the place in which the block has it.
#[derive(Clone, Copy)]
pub(crate) struct Moved {
    pub(crate) spot: Spot,
    pub(crate) object: Object,
}

/// Whether the object of an input is written.
fn is_written(input: &Input) -> bool
    ensures { result ≡ is_written input.now }
{
    match input {
        Input::Pure(_) | Input::Immutable(_) => false,
        Input::Owned(_) => true,
        Input::Shared { mutable, .. } => *mutable,
    }
}

/// Adds the object of an input, if it is written.
fn add(
    moved: &mut Seq<Moved>,
    input: &Input,
    number: u16,
    object: &Object,
) -> Result<(), OutOfMemory>
    ensures { OnOk result (moved.new ≡ (if is_written input.now then moved.old ++ record { spot = Spot.Input number; object = object.now } ∷ [] else moved.old)) }
{
    if is_written(input) {
        moved.push(Moved {
            spot: Spot::Input(number),
            object: *object,
        })?;
    }
    Ok(())
}

/// Adds the objects of the inputs that are written.
fn add_inputs(
    moved: &mut Seq<Moved>,
    inputs: &[Input],
    objects: &[Object],
) -> Result<(), OutOfMemory>
    requires { length inputs.now ≤ 256 }
    ensures { OnOk result (moved.new ≡ moved_after moved.old 0 inputs.now objects.now) }
{
    let mut number = 0;
    let mut left = inputs;
    let mut rest = objects;
    while let [input, after @ ..] = left {
        match input {
            Input::Pure(_) => {}
            Input::Owned(_) | Input::Immutable(_) | Input::Shared { .. } => {
                let [object, others @ ..] = rest else {
                    return Ok(());
                };
                add(moved, input, number, object)?;
                rest = others;
            }
        }
        number += 1;
        left = after;
    }
    Ok(())
}

/// The gas coin and the objects of the inputs that are written, in order.
#[tactic(auto, using(crate::proofs::WrittenPlaces::places_are))]
pub(crate) fn written_places(
    alloc: Global,
    tx: &Transaction,
    gas: &Object,
    others: &[Object],
) -> Result<Seq<Moved>, OutOfMemory>
    requires { length tx.now.inputs ≤ 256 }
    ensures { IfOk result (λ moved. map moved_of moved ≡ written_places tx.now (gas.now ∷ others.now)) }
{
    let mut moved = Seq::with_room(alloc, 1 + tx.inputs.len())?;
    moved.push(Moved {
        spot: Spot::Gas,
        object: *gas,
    })?;
    add_inputs(&mut moved, tx.inputs.as_slice(), others)?;
    Ok(moved)
}
