//! The call of a native by a command.

ghost use Rattle.std.specs.Prelude.{◌≡◌, ◌+◌, ◌<◌, ◌≤◌, [], map, IfOk, OnOk, IsTrue, if◌then◌else◌, true};
ghost use Rattle.std.specs.List.{list_all};
ghost use Rattle.protocol_spec.specs.Block.Natives.{native_gives, parameters_of};
ghost use Rattle.protocol_spec.specs.Block.Block.{value_in};
ghost use Rattle.protocol_spec.specs.Block.Commands as commands;
ghost use Rattle.native_calls.specs.Forms.{have_forms};
ghost use Rattle.ptb_run.specs.Blocks.{block_of, rows_of};
ghost use Rattle.ptb_run.specs.Drawn.{AreDrawn, new_ids};
ghost use Rattle.ptb_run.specs.Needs.{need_meant, wanted_of};
ghost use Rattle.ptb_run.specs.Outcomes.{Steps};
ghost use Rattle.ptb_run.specs.Rows.{items_row_after};
ghost use Rattle.ptb_run.specs.Takes.{givens_after, is_taken};

use crate::block::Block;
use crate::commands::Site;
use crate::halt::{Fault, Halt};
use crate::needs::{Need, Wanted, takes_value};
use crate::value::Value;
use chain_types::LAST_NATIVE;
use native_calls::call;
use protocol_spec::{Gave, Given, Item, Placed};
use std::alloc::Global;
use wire_bcs::{OutOfMemory, Seq};

/// What a native is given for an argument: a number, an object or a list of objects.
#[tactic(auto, using(crate::proofs::Given::given_by_value, crate::proofs::Given::given_by_mut, crate::proofs::Given::given_by_ref, crate::proofs::Given::given_coins))]
fn given(alloc: Global, block: &Block, wanted: &Wanted) -> Result<Given, OutOfMemory>
    requires { is_taken (block_of block.now) (wanted_of wanted.now) ≡ true }
    ensures { IfOk result (λ given. given ≡ commands.given_as (need_meant wanted.now.need) (value_in (commands.place_of wanted.now.argument) (block_of block.now).slots)) }
{
    match wanted.need {
        Need::Number => Ok(Given::Number(block.number_in(&wanted.argument))),
        Need::Address => Ok(Given::Number(0)),
        Need::ByValue(_) => block.value_given(alloc, &wanted.argument),
        Need::ByMut(_) => block.value_given(alloc, &wanted.argument),
        Need::ByRef(_) => block.value_given(alloc, &wanted.argument),
        Need::Coins => block.value_given(alloc, &wanted.argument),
    }
}

/// The loop of [`give_all`].
fn give_each(alloc: Global, block: &Block, wanted: &[Wanted]) -> Result<Seq<Given>, OutOfMemory>
    requires { list_all (is_taken (block_of block.now)) (map wanted_of wanted.now) ≡ true }
    ensures { IfOk result (λ givens. givens ≡ givens_after (block_of block.now) [] wanted.now) }
{
    let mut givens = Seq::with_room(alloc, wanted.len() as u64)?;
    let mut rest = wanted;
    while let [one, after @ ..] = rest {
        givens.push(given(alloc, block, one)?)?;
        rest = after;
    }
    Ok(givens)
}

/// What a native is given for its arguments, in order.
#[tactic(auto, using(crate::proofs::Given::givens_are))]
fn give_all(alloc: Global, block: &Block, wanted: &[Wanted]) -> Result<Seq<Given>, OutOfMemory>
    requires { list_all (is_taken (block_of block.now)) (map wanted_of wanted.now) ≡ true }
    ensures { IfOk result (λ givens. givens ≡ commands.given_all (block_of block.now) (map wanted_of wanted.now)) }
{
    give_each(alloc, block, wanted)
}

/// Spends the place of an argument that is taken by value.
fn spend_one(block: &mut Block, wanted: &Wanted)
    ensures after { block_of block.new ≡ (if commands.takes_value (need_meant wanted.now.need) then commands.spend wanted.now.argument (block_of block.old) else block_of block.old) }
    ensures rows { rows_of block.new ≡ rows_of block.old }
{
    if takes_value(wanted.need) {
        block.spend(&wanted.argument);
    }
}

/// Spends the places of all arguments that are taken by value.
fn spend_taken(block: &mut Block, wanted: &[Wanted])
    ensures after { block_of block.new ≡ commands.spend_taken (map wanted_of wanted.now) (block_of block.old) }
    ensures rows { rows_of block.new ≡ rows_of block.old }
{
    let mut rest = wanted;
    while let [one, after @ ..] = rest {
        spend_one(block, one);
        rest = after;
    }
}

/// Puts the object that a native changed back into the place of its first argument.
fn put_changed(block: &mut Block, wanted: &[Wanted], changed: Option<Item>)
    ensures after { block_of block.new ≡ commands.put_changed (map wanted_of wanted.now) changed (block_of block.old) }
    ensures rows { rows_of block.new ≡ rows_of block.old }
{
    if let [first, ..] = wanted {
        if let Some(item) = changed {
            block.put_back(&first.argument, item);
        }
    }
}

/// The results of a native as a row of places.
fn items_row(alloc: Global, items: &[Item]) -> Result<Seq<Option<Value>>, OutOfMemory>
    ensures { IfOk result (λ row. row ≡ items_row_after [] items.now) }
{
    let mut row = Seq::with_room(alloc, items.len() as u64)?;
    let mut rest = items;
    while let [item, after @ ..] = rest {
        row.push(Some(Value::Object(*item)))?;
        rest = after;
    }
    Ok(row)
}

/// Takes what a native gave into the block: spends, puts back, notes what left and adds the results.
fn take_in(
    alloc: Global,
    block: &mut Block,
    site: &Site,
    before: u32,
    wanted: &[Wanted],
    results: &[Item],
    changed: Option<Item>,
    placed: Option<Placed>,
    made: u32,
) -> Result<(), OutOfMemory>
    requires room { before < 2147483136 }
    requires drawn { AreDrawn site.now.tx before (new_ids before made results.now) }
    ensures after { OnOk result (block_of block.new ≡ commands.called_block (rows_of block.old) (block_of block.old) (map wanted_of wanted.now) results.now changed placed made) }
    ensures rows { OnOk result (rows_of block.new ≡ rows_of block.old + 1) }
{
    let row = items_row(alloc, results)?;
    spend_taken(block, wanted);
    put_changed(block, wanted, changed);
    block.leave(placed)?;
    block.draw_results(&site.tx, before, made, results)?;
    block.add_results(row)?;
    Ok(())
}

/// Calls a native on arguments that may be taken.
#[tactic(auto, using(crate::proofs::Drawing::results_drawn))]
pub(crate) fn call_native(
    alloc: Global,
    block: &mut Block,
    site: &Site,
    native: u8,
    wanted: &[Wanted],
) -> Result<(), Halt>
    requires known { native ≤ LAST_NATIVE }
    requires room { (block_of block.old).made < 2147483136 }
    requires taken { list_all (is_taken (block_of block.old)) (map wanted_of wanted.now) ≡ true }
    requires forms { have_forms (parameters_of native) (commands.given_all (block_of block.old) (map wanted_of wanted.now)) ≡ true }
    ensures steps { Steps result (commands.called (rows_of block.old) (block_of block.old) (map wanted_of wanted.now) (native_gives native (commands.site site.now.tx site.now.version (block_of block.old)) (commands.given_all (block_of block.old) (map wanted_of wanted.now)))) (block_of block.new) }
    ensures rows { OnOk result (rows_of block.new ≡ rows_of block.old + 1) }
{
    let givens = give_all(alloc, block, wanted)?;
    let before = block.made();
    match call(alloc, native, &site.tx, site.version, before, givens)? {
        Gave::Abort(code) => Err(Halt::Fault(Fault::Abort(code))),
        Gave::Done {
            results,
            changed,
            placed,
            made,
        } => {
            take_in(
                alloc,
                block,
                site,
                before,
                wanted,
                results.as_slice(),
                changed,
                placed,
                made,
            )?;
            Ok(())
        }
    }
}
