//! What each command does, if its arguments may be taken.

ghost use Rattle.std.specs.Prelude.{◌≡◌, ◌+◌, ◌-◌, ◌<◌, ◌≤◌, ◌^◌, ◌∷◌, [], not, ◌==◌, nat_le, nat_lt, if◌then◌else◌, length, map, sum, IfOk, OnOk, SomeIff, true};
ghost use Rattle.std.specs.List.{list_all, list_any};
ghost use Rattle.protocol_spec.specs.Block.Natives.{amount_limit, amount_of, currency_of};
ghost use Rattle.protocol_spec.specs.Block.Commands as commands;
ghost use Rattle.protocol_spec.specs.Block.Commands.{item_in, merge, number_in, sum_of, transfer_block, vector_block, withheld};
ghost use Rattle.ptb_run.specs.Blocks.{block_of, rows_of};
ghost use Rattle.ptb_run.specs.Outcomes.{Steps};
ghost use Rattle.ptb_run.specs.Rows.{coins_after};
ghost use Rattle.ptb_run.specs.Takes.{is_taken};

use crate::block::Block;
use crate::drawn::DrawnIds;
use crate::halt::{Cause, Fault, Halt};
use crate::value::Value;
use chain_types::{Argument, Content, Kind, Owner, Transaction};
use digest_core::Digest;
use native_calls::contents::{amount_of, currency_of, holding};
use protocol_spec::Item;
use std::alloc::Global;
use wire_bcs::{OutOfMemory, Seq};

/// The sum of amounts, if it is an amount.
fn sum_of_numbers(numbers: &[u64]) -> Option<u64>
    ensures { SomeIff result (sum numbers.now < 2 ^ 64) (sum numbers.now) }
{
    let mut total: u64 = 0;
    let mut rest = numbers;
    while let [number, after @ ..] = rest {
        total = total.checked_add(*number)?;
        rest = after;
    }
    Some(total)
}

/// The sum of this amount and of what the objects in the places hold, if it is an amount.
fn sum_from(block: &Block, start: u64, sources: &[Argument]) -> Option<u64>
    ensures { let total = start + sum_of (commands.items_in (block_of block.now) sources.now) in SomeIff result (total < 2 ^ 64) total }
{
    let mut total = start;
    let mut rest = sources;
    while let [source, after @ ..] = rest {
        if let Some(item) = block.item_in(source) {
            total = total.checked_add(amount_of(&item.content))?;
        }
        rest = after;
    }
    Some(total)
}

/// Whether one of the objects in the places has another currency than the target.
fn any_other_currency(block: &Block, target: &Item, sources: &[Argument]) -> bool
    ensures { result ≡ list_any (λ i. not (currency_of i.content == currency_of target.now.content)) (commands.items_in (block_of block.now) sources.now) }
{
    let mut rest = sources;
    while let [source, after @ ..] = rest {
        if let Some(item) = block.item_in(source) {
            if currency_of(&item.content) != currency_of(&target.content) {
                return true;
            }
        }
        rest = after;
    }
    false
}

/// New coins of the currency, one for each amount, gathered one after the other.
fn new_coins(
    alloc: Global,
    drawn: &mut DrawnIds,
    tx: &Digest,
    made: u32,
    currency: u64,
    amounts: &[u64],
) -> Result<Seq<Option<Value>>, OutOfMemory>
    requires few { length amounts.now ≤ 512 }
    requires room { made < 2147483648 }
    ensures { IfOk result (λ row. row ≡ coins_after tx.now made currency [] 0 amounts.now) }
{
    let mut row = Seq::with_room(alloc, amounts.len() as u64)?;
    let mut ahead = 0;
    let mut rest = amounts;
    while let [amount, after @ ..] = rest {
        let id = drawn.draw(tx, made + ahead)?;
        row.push(Some(Value::Object(Item {
            id,
            content: Content::Coin {
                currency,
                balance: *amount,
            },
            fresh: true,
        })))?;
        ahead += 1;
        rest = after;
    }
    Ok(row)
}

/// What new objects of a block are made with: the transaction's digest, and the version at which it writes.
#[derive(Clone, Copy)]
pub(crate) struct Site {
    pub(crate) tx: Digest,
    pub(crate) version: u64,
}

/// The balance of a coin less the sum of the amounts; none if it is less than the sum.
fn left_of(coin: &Item, amounts: &[u64]) -> Option<u64>
    ensures { result ≡ (if nat_lt (amount_of coin.now.content) (sum amounts.now) then None else Some (amount_of coin.now.content - sum amounts.now)) }
{
    let balance = amount_of(&coin.content);
    let sum = sum_of_numbers(amounts)?;
    if balance < sum {
        None
    } else {
        Some(balance - sum)
    }
}

/// New coins of the currency, one for each amount, under ids that the block draws.
#[tactic(auto, unfolding(crate::specs::Blocks::block_of, crate::specs::Blocks::rows_of))]
fn draw_coins(
    alloc: Global,
    block: &mut Block,
    tx: &Digest,
    made: u32,
    currency: u64,
    amounts: &[u64],
) -> Result<Seq<Option<Value>>, OutOfMemory>
    requires few { length amounts.now ≤ 512 }
    requires room { made < 2147483648 }
    ensures row { IfOk result (λ row. row ≡ coins_after tx.now made currency [] 0 amounts.now) }
    ensures same { block_of block.new ≡ block_of block.old }
    ensures rows { rows_of block.new ≡ rows_of block.old }
{
    new_coins(alloc, &mut block.drawn, tx, made, currency, amounts)
}

/// Splits a coin that keeps `left` into new coins of these amounts.
fn split_coin(
    alloc: Global,
    block: &mut Block,
    site: &Site,
    coin: &Argument,
    item: &Item,
    left: u64,
    amounts: &[u64],
) -> Result<(), OutOfMemory>
    requires left { left ≡ amount_of item.now.content - sum amounts.now }
    requires few { length amounts.now ≤ 512 }
    requires room { (block_of block.old).made < 2147483136 }
    ensures after { OnOk result (block_of block.new ≡ commands.split_block (commands.site site.now.tx site.now.version (block_of block.old)) (rows_of block.old) (block_of block.old) coin.now item.now amounts.now) }
    ensures rows { OnOk result (rows_of block.new ≡ rows_of block.old + 1) }
{
    let made = block.made();
    let row = draw_coins(
        alloc,
        block,
        &site.tx,
        made,
        currency_of(&item.content),
        amounts,
    )?;
    block.put_back(coin, holding(left, item));
    block.set_made(made + amounts.len() as u32);
    block.add_results(row)?;
    Ok(())
}

/// Splits one new coin for each amount off a coin, if it shows at least their sum.
pub(crate) fn split(
    alloc: Global,
    block: &mut Block,
    site: &Site,
    coin: &Argument,
    amounts: &[Argument],
) -> Result<(), Halt>
    requires taken { list_all (is_taken (block_of block.old)) (commands.all_by commands.number amounts.now) ≡ true }
    requires few { length amounts.now ≤ 512 }
    requires room { (block_of block.old).made < 2147483136 }
    ensures steps { Steps result (commands.split (commands.site site.now.tx site.now.version (block_of block.old)) (rows_of block.old) (block_of block.old) coin.now (item_in (block_of block.old) coin.now) (map (number_in (block_of block.old)) amounts.now)) (block_of block.new) }
    ensures rows { OnOk result (rows_of block.new ≡ rows_of block.old + 1) }
{
    let Some(item) = block.item_in(coin) else {
        return Err(Halt::Fault(Fault::Cause(Cause::WrongKind)));
    };
    let numbers = block.numbers_in(alloc, amounts)?;
    let Some(left) = left_of(&item, numbers.as_slice()) else {
        return Err(Halt::Fault(Fault::Cause(Cause::TooLittle)));
    };
    split_coin(alloc, block, site, coin, &item, left, numbers.as_slice())?;
    Ok(())
}

/// What is withheld from the coin that the argument names: the budget from the gas coin, and nothing from another.
fn withheld(tx: &Transaction, argument: &Argument) -> u64
    ensures { result ≡ withheld tx.now argument.now }
{
    match argument {
        Argument::Gas => tx.budget,
        Argument::Input(_) | Argument::Result(_) | Argument::Nested(_, _) => 0,
    }
}

/// The balance of a coin and its sources; none if this, with the budget withheld from the gas coin, passes 2^64 - 1.
fn merged(
    block: &Block,
    tx: &Transaction,
    target: &Argument,
    item: &Item,
    sources: &[Argument],
) -> Option<u64>
    ensures { let added = sum_of (commands.items_in (block_of block.now) sources.now) in result ≡ (if nat_le amount_limit (amount_of item.now.content + withheld tx.now target.now + added) then None else Some (amount_of item.now.content + added)) }
{
    let total = sum_from(block, amount_of(&item.content), sources)?;
    match total.checked_add(withheld(tx, target)) {
        Some(_) => Some(total),
        None => None,
    }
}

/// Merges sources into a coin, whose balance becomes `total`.
fn merge_coins(
    alloc: Global,
    block: &mut Block,
    target: &Argument,
    item: &Item,
    total: u64,
    sources: &[Argument],
) -> Result<(), OutOfMemory>
    requires { total ≡ amount_of item.now.content + sum_of (commands.items_in (block_of block.old) sources.now) }
    ensures after { OnOk result (block_of block.new ≡ commands.merge_block (block_of block.old) target.now item.now sources.now) }
    ensures rows { OnOk result (rows_of block.new ≡ rows_of block.old + 1) }
{
    block.spend_all(sources);
    block.put_back(target, holding(total, item));
    block.add_nothing(alloc)?;
    Ok(())
}

/// Adds coins to a coin and deletes them, if all are of its currency and the sum is an amount.
pub(crate) fn merge(
    alloc: Global,
    block: &mut Block,
    tx: &Transaction,
    target: &Argument,
    sources: &[Argument],
) -> Result<(), Halt>
    ensures steps { Steps result (merge tx.now (block_of block.old) target.now (item_in (block_of block.old) target.now) sources.now) (block_of block.new) }
    ensures rows { OnOk result (rows_of block.new ≡ rows_of block.old + 1) }
{
    let Some(item) = block.item_in(target) else {
        return Err(Halt::Fault(Fault::Cause(Cause::WrongKind)));
    };
    if any_other_currency(block, &item, sources) {
        return Err(Halt::Fault(Fault::Cause(Cause::OtherCurrency)));
    }
    let Some(total) = merged(block, tx, target, &item, sources) else {
        return Err(Halt::Fault(Fault::Cause(Cause::Overflow)));
    };
    merge_coins(alloc, block, target, &item, total, sources)?;
    Ok(())
}

/// The values leave the block to an address.
pub(crate) fn transfer(
    alloc: Global,
    block: &mut Block,
    values: &[Argument],
    to: &Argument,
) -> Result<(), OutOfMemory>
    requires { is_taken (block_of block.old) (to.now, commands.address) ≡ true }
    ensures after { OnOk result (block_of block.new ≡ transfer_block (block_of block.old) values.now (commands.address_in (block_of block.old) to.now)) }
    ensures rows { OnOk result (rows_of block.new ≡ rows_of block.old + 1) }
{
    let owner = Owner::Address(block.address_in(to));
    block.place_all(owner, values)?;
    block.spend_all(values);
    block.add_nothing(alloc)?;
    Ok(())
}

/// A row of one result, the vector of these values.
fn vector_row(
    alloc: Global,
    kind: Kind,
    items: Seq<Item>,
) -> Result<Seq<Option<Value>>, OutOfMemory>
    ensures { IfOk result (λ row. row ≡ Some (Value.Vector kind items) ∷ []) }
{
    let mut row = Seq::with_room(alloc, 1)?;
    row.push(Some(Value::Vector { kind, items }))?;
    Ok(row)
}

/// Makes one vector of the values.
#[tactic(auto, using(crate::proofs::Leaving::vector_is))]
pub(crate) fn make_vector(
    alloc: Global,
    block: &mut Block,
    kind: Kind,
    values: &[Argument],
) -> Result<(), OutOfMemory>
    ensures after { OnOk result (block_of block.new ≡ vector_block (rows_of block.old) (block_of block.old) kind values.now) }
    ensures rows { OnOk result (rows_of block.new ≡ rows_of block.old + 1) }
{
    let items = block.items_in(alloc, values)?;
    let row = vector_row(alloc, kind, items)?;
    block.spend_all(values);
    block.add_results(row)?;
    Ok(())
}
