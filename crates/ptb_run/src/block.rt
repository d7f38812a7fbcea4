//! The state of a block between two commands.

ghost use Rattle.std.specs.Prelude.{◌≡◌, ◌+◌, ◌<◌, ◌∷◌, ◌++◌, [], length, map, IfOk, OnOk, true};
ghost use Rattle.std.specs.List.{list_all, list_any};
ghost use Rattle.protocol_spec.specs.Block.Execution.{is_unused};
ghost use Rattle.protocol_spec.specs.Block.Block as block;
ghost use Rattle.protocol_spec.specs.Block.Commands.{address_in, all_by, bytes_of, has_no_result, item_in, items_in, number_in, piece_of, place_of, placed_at, placed_list, put_back, spend, spend_all};
ghost use Rattle.ptb_run.specs.Blocks.{block_of, rows_of, with_row};
ghost use Rattle.ptb_run.specs.Rows.{placed_after};
ghost use Rattle.ptb_run.specs.Slots.{slots_of};
ghost use Rattle.protocol_spec.specs.Block.Commands as commands;
ghost use Rattle.ptb_run.specs.Gathering.{items_after, numbers_after};
ghost use Rattle.ptb_run.specs.Drawn.{AreDrawn, new_ids};
ghost use Rattle.ptb_run.specs.Takes.{is_taken, value_given};

use crate::drawn::DrawnIds;
use crate::slots::Slots;
use crate::value::{Value, spot_of};
use chain_types::{Address, Argument, Owner};
use digest_core::Digest;
use protocol_spec::{Given, Item, Placed};
use std::alloc::Global;
use wire_bcs::{OutOfMemory, Seq};

/// A block between two commands: its places, the objects that left it to an owner, the next creation number, and the
/// ids that it drew so far.
#[derive(Drop)]
pub(crate) struct Block {
    pub(crate) slots: Slots,
    pub(crate) placed: Seq<Placed>,
    pub(crate) made: u32,
    pub(crate) drawn: DrawnIds,
}

impl Block {
    /// Whether an argument names a result that does not exist (cause 2).
    #[tactic(auto, unfolding(crate::specs::Blocks::block_of))]
    pub(crate) fn has_no_result(&self, argument: &Argument) -> bool
        ensures { result ≡ has_no_result (block_of self.now) argument.now }
    {
        match argument {
            Argument::Gas | Argument::Input(_) => false,
            Argument::Result(command) => self.slots.result_count(*command) != 1,
            Argument::Nested(command, number) => {
                self.slots.result_count(*command) <= u64::from(*number)
            }
        }
    }

    /// The object in the place of an argument.
    #[tactic(auto, unfolding(crate::specs::Blocks::block_of))]
    pub(crate) fn item_in(&self, argument: &Argument) -> Option<Item>
        ensures { result ≡ item_in (block_of self.now) argument.now }
    {
        item_at(&self.slots, argument)
    }

    /// The pure bytes in the place of an argument.
    #[tactic(auto, unfolding(crate::specs::Blocks::block_of))]
    fn bytes_in(&self, argument: &Argument) -> &[u8]
        ensures { result.now ≡ bytes_of (block.value_in (place_of argument.now) (block_of self.now).slots) }
    {
        match self.slots.at(spot_of(argument)) {
            Some(Value::Pure(bytes)) => bytes.as_slice(),
            Some(Value::Object(_)) | Some(Value::Vector { .. }) | None => &[],
        }
    }

    /// The number that the 8 bytes in the place of an argument encode.
    #[tactic(auto, using(crate::proofs::Taken::eight_bytes))]
    pub(crate) fn number_in(&self, argument: &Argument) -> u64
        requires { is_taken (block_of self.now) (argument.now, commands.number) ≡ true }
        ensures { result ≡ number_in (block_of self.now) argument.now }
    {
        match <[u8; 8]>::try_from(self.bytes_in(argument)) {
            Ok(bytes) => u64::from_le_bytes(bytes),
            Err(_) => unreachable!(),
        }
    }

    /// The address that the 32 bytes in the place of an argument are.
    #[tactic(auto, using(crate::proofs::Taken::thirty_two_bytes))]
    pub(crate) fn address_in(&self, argument: &Argument) -> Address
        requires { is_taken (block_of self.now) (argument.now, commands.address) ≡ true }
        ensures { result ≡ address_in (block_of self.now) argument.now }
    {
        match <[u8; 32]>::try_from(self.bytes_in(argument)) {
            Ok(bytes) => Address(Digest(bytes)),
            Err(_) => unreachable!(),
        }
    }

    /// The loop of [`Block::items_in`].
    fn gather(&self, alloc: Global, args: &[Argument]) -> Result<Seq<Item>, OutOfMemory>
        ensures { IfOk result (λ items. items ≡ items_after (block_of self.now) [] args.now) }
    {
        let mut items = Seq::with_room(alloc, args.len() as u64)?;
        let mut rest = args;
        while let [argument, after @ ..] = rest {
            if let Some(item) = self.item_in(argument) {
                items.push(item)?;
            }
            rest = after;
        }
        Ok(items)
    }

    /// The objects in the places of arguments.
    #[tactic(auto, using(crate::proofs::Gathered::items_are))]
    pub(crate) fn items_in(
        &self,
        alloc: Global,
        args: &[Argument],
    ) -> Result<Seq<Item>, OutOfMemory>
        ensures { IfOk result (λ items. items ≡ items_in (block_of self.now) args.now) }
    {
        self.gather(alloc, args)
    }

    /// The loop of [`Block::numbers_in`].
    fn gather_numbers(&self, alloc: Global, args: &[Argument]) -> Result<Seq<u64>, OutOfMemory>
        requires { list_all (is_taken (block_of self.now)) (all_by commands.number args.now) ≡ true }
        ensures { IfOk result (λ numbers. numbers ≡ numbers_after (block_of self.now) [] args.now) }
    {
        let mut numbers = Seq::with_room(alloc, args.len() as u64)?;
        let mut rest = args;
        while let [argument, after @ ..] = rest {
            numbers.push(self.number_in(argument))?;
            rest = after;
        }
        Ok(numbers)
    }

    /// The numbers that the bytes in the places of arguments encode.
    #[tactic(auto, using(crate::proofs::Gathered::numbers_are))]
    pub(crate) fn numbers_in(
        &self,
        alloc: Global,
        args: &[Argument],
    ) -> Result<Seq<u64>, OutOfMemory>
        requires { list_all (is_taken (block_of self.now)) (all_by commands.number args.now) ≡ true }
        ensures { IfOk result (λ numbers. numbers ≡ map (number_in (block_of self.now)) args.now) }
    {
        self.gather_numbers(alloc, args)
    }

    /// Spends the place of an argument.
    #[tactic(auto, unfolding(crate::specs::Blocks::block_of, crate::specs::Blocks::rows_of))]
    pub(crate) fn spend(&mut self, argument: &Argument)
        ensures after { block_of self.new ≡ spend argument.now (block_of self.old) }
        ensures rows { rows_of self.new ≡ rows_of self.old }
    {
        self.slots.put(spot_of(argument), None);
    }

    /// Spends the places of arguments.
    pub(crate) fn spend_all(&mut self, args: &[Argument])
        ensures after { block_of self.new ≡ spend_all args.now (block_of self.old) }
        ensures rows { rows_of self.new ≡ rows_of self.old }
    {
        let mut rest = args;
        while let [argument, after @ ..] = rest {
            self.spend(argument);
            rest = after;
        }
    }

    /// Puts an object into the place of an argument.
    #[tactic(auto, unfolding(crate::specs::Blocks::block_of, crate::specs::Blocks::rows_of))]
    pub(crate) fn put_back(&mut self, argument: &Argument, item: Item)
        ensures after { block_of self.new ≡ put_back argument.now item (block_of self.old) }
        ensures rows { rows_of self.new ≡ rows_of self.old }
    {
        self.slots.put(spot_of(argument), Some(Value::Object(item)));
    }

    /// The object or the vector in the place of an argument, as a native takes it.
    #[tactic(auto, unfolding(crate::specs::Blocks::block_of))]
    pub(crate) fn value_given(
        &self,
        alloc: Global,
        argument: &Argument,
    ) -> Result<Given, OutOfMemory>
        ensures { IfOk result (λ given. given ≡ value_given (block.value_in (place_of argument.now) (block_of self.now).slots)) }
    {
        match self.slots.at(spot_of(argument)) {
            Some(Value::Object(item)) => Ok(Given::Item(*item)),
            Some(Value::Vector { items, .. }) => {
                Ok(Given::Items(Seq::from_slice(alloc, items.as_slice())?))
            }
            Some(Value::Pure(_)) | None => Ok(Given::Number(0)),
        }
    }

    /// Notes that an object left the block to an owner, if one did.
    #[tactic(auto, unfolding(crate::specs::Blocks::block_of, crate::specs::Blocks::rows_of), using(crate::proofs::Leaving::none_leaves))]
    pub(crate) fn leave(&mut self, placed: Option<Placed>) -> Result<(), OutOfMemory>
        ensures after { OnOk result (block_of self.new ≡ record (block_of self.old) { placed = (block_of self.old).placed ++ placed_list placed }) }
        ensures rows { rows_of self.new ≡ rows_of self.old }
    {
        if let Some(placed) = placed {
            self.placed.push(placed)?;
        }
        Ok(())
    }

    /// Whether a result place still holds a value.
    #[tactic(auto, unfolding(crate::specs::Blocks::block_of))]
    pub(crate) fn any_unused(&self) -> bool
        ensures { result ≡ list_any is_unused (block_of self.now).slots }
    {
        self.slots.any_unused()
    }

    /// The number of the next creation.
    #[tactic(auto, unfolding(crate::specs::Blocks::block_of))]
    pub(crate) fn made(&self) -> u32
        ensures { result ≡ (block_of self.now).made }
    {
        self.made
    }

    /// Sets the next creation number.
    #[tactic(auto, unfolding(crate::specs::Blocks::block_of, crate::specs::Blocks::rows_of))]
    pub(crate) fn set_made(&mut self, made: u32)
        ensures after { block_of self.new ≡ record (block_of self.old) { made = made } }
        ensures rows { rows_of self.new ≡ rows_of self.old }
    {
        self.made = made;
    }

    /// Sets the next creation number after a native that gave these results, and keeps their ids.
    #[tactic(auto, unfolding(crate::specs::Blocks::block_of, crate::specs::Blocks::rows_of))]
    pub(crate) fn draw_results(
        &mut self,
        tx: &Digest,
        before: u32,
        made: u32,
        results: &[Item],
    ) -> Result<(), OutOfMemory>
        requires room { before < 2147483136 }
        requires drawn { AreDrawn tx.now before (new_ids before made results.now) }
        ensures after { OnOk result (block_of self.new ≡ record (block_of self.old) { made = made }) }
        ensures rows { rows_of self.new ≡ rows_of self.old }
    {
        self.drawn.keep_results(tx, before, made, results)?;
        self.made = made;
        Ok(())
    }

    /// The loop of [`Block::place_all`].
    #[tactic(auto, unfolding(crate::specs::Blocks::block_of, crate::specs::Blocks::rows_of))]
    fn place_each(&mut self, owner: Owner, args: &[Argument]) -> Result<(), OutOfMemory>
        ensures after { OnOk result (block_of self.new ≡ record (block_of self.old) { placed = placed_after (block_of self.old).slots (block_of self.old).placed owner args.now }) }
        ensures rows { rows_of self.new ≡ rows_of self.old }
    {
        place_all(&mut self.placed, &self.slots, owner, args)
    }

    /// The objects in the places of arguments leave the block to an owner.
    #[tactic(auto, using(crate::proofs::Leaving::placed_are))]
    pub(crate) fn place_all(&mut self, owner: Owner, args: &[Argument]) -> Result<(), OutOfMemory>
        ensures after { OnOk result (block_of self.new ≡ record (block_of self.old) { placed = (block_of self.old).placed ++ map (placed_at owner) (items_in (block_of self.old) args.now) }) }
        ensures rows { rows_of self.new ≡ rows_of self.old }
    {
        self.place_each(owner, args)
    }

    /// Adds the results of the next command.
    #[tactic(auto, unfolding(crate::specs::Blocks::block_of, crate::specs::Blocks::rows_of))]
    pub(crate) fn add_results(&mut self, row: Seq<Option<Value>>) -> Result<(), OutOfMemory>
        ensures after { OnOk result (block_of self.new ≡ with_row (rows_of self.old) row (block_of self.old)) }
        ensures rows { OnOk result (rows_of self.new ≡ rows_of self.old + 1) }
    {
        self.slots.add_results(row)
    }

    /// The next command has no results.
    #[tactic(auto, using(crate::proofs::Leaving::no_row))]
    pub(crate) fn add_nothing(&mut self, alloc: Global) -> Result<(), OutOfMemory>
        ensures after { OnOk result (block_of self.new ≡ block_of self.old) }
        ensures rows { OnOk result (rows_of self.new ≡ rows_of self.old + 1) }
    {
        self.add_results(Seq::new(alloc))
    }
}

/// The object in the place of an argument.
fn item_at(slots: &Slots, argument: &Argument) -> Option<Item>
    ensures { result ≡ piece_of (block.value_in (place_of argument.now) (slots_of slots.now)) }
{
    match slots.at(spot_of(argument)) {
        Some(Value::Object(item)) => Some(*item),
        Some(Value::Pure(_)) | Some(Value::Vector { .. }) | None => None,
    }
}

/// Adds the objects in the places of arguments, which leave the block to an owner.
fn place_all(
    placed: &mut Seq<Placed>,
    slots: &Slots,
    owner: Owner,
    args: &[Argument],
) -> Result<(), OutOfMemory>
    ensures { OnOk result (placed.new ≡ placed_after (slots_of slots.now) placed.old owner args.now) }
{
    let mut rest = args;
    while let [argument, after @ ..] = rest {
        if let Some(item) = item_at(slots, argument) {
            placed.push(Placed { item, owner })?;
        }
        rest = after;
    }
    Ok(())
}
