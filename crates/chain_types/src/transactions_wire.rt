//! Transactions on the wire, and their digests.

ghost use Rattle.std.specs.Prelude.{◌≡◌, IfOk, Ok};
ghost use Rattle.wire_bcs.specs.Whole.{whole};
ghost use Rattle.wire_bcs.specs.Gives.{Decodes};
ghost use Rattle.chain_types.specs.Transactions as codecs;
ghost use Rattle.chain_types.specs.Digests.{transaction_digest};

use crate::objects::ObjectRef;
use crate::transactions::{Argument, Command, Input, SignedTx, Transaction};
use digest_core::{Digest, TAG_TRANSACTION, digest_of};
use std::alloc::Global;
use wire_bcs::{
    Duplicate, FaultKind, OutOfMemory, Reader, Seq, Unread, Wire, Writer, decode, encode,
    put_variant, put_variant_of_three, put_variant_of_two,
};

#[tactic(auto, using(wire_bcs::specs::Wrote::parts), unfolding(crate::specs::Transactions::input))]
impl Wire for Input {
    ghost codec = { codecs.input };

    fn write_into(&self, writer: &mut Writer) -> Result<(), OutOfMemory> {
        match self {
            Input::Pure(bytes) => {
                writer.put_tag(0)?;
                writer.put_bytes(bytes.as_slice())?;
                Ok(())
            }
            Input::Owned(reference) => put_variant(writer, 1, reference),
            Input::Immutable(reference) => put_variant(writer, 2, reference),
            Input::Shared {
                id,
                initial,
                mutable,
            } => put_variant_of_three(writer, 3, id, initial, mutable),
        }
    }

    fn read_from(alloc: Global, reader: &mut Reader) -> Result<Self, Unread> {
        match reader.tag(4)? {
            0 => {
                let bytes = reader.bytes()?;
                Ok(Input::Pure(Seq::from_slice(alloc, bytes)?))
            }
            1 => {
                let reference = ObjectRef::read_from(alloc, reader)?;
                Ok(Input::Owned(reference))
            }
            2 => {
                let reference = ObjectRef::read_from(alloc, reader)?;
                Ok(Input::Immutable(reference))
            }
            _ => {
                let (id, (initial, mutable)) = Wire::read_from(alloc, reader)?;
                Ok(Input::Shared {
                    id,
                    initial,
                    mutable,
                })
            }
        }
    }
}

impl Duplicate for Input {
    fn copy(&self) -> Result<Self, OutOfMemory> {
        Ok(match self {
            Input::Pure(bytes) => Input::Pure(bytes.copy()?),
            Input::Owned(reference) => Input::Owned(*reference),
            Input::Immutable(reference) => Input::Immutable(*reference),
            Input::Shared {
                id,
                initial,
                mutable,
            } => Input::Shared {
                id: *id,
                initial: *initial,
                mutable: *mutable,
            },
        })
    }
}

#[tactic(auto, using(wire_bcs::specs::Wrote::parts), unfolding(crate::specs::Transactions::argument))]
impl Wire for Argument {
    ghost codec = { codecs.argument };

    fn write_into(&self, writer: &mut Writer) -> Result<(), OutOfMemory> {
        match self {
            Argument::Gas => {
                writer.put_tag(0)?;
                Ok(())
            }
            Argument::Input(input) => put_variant(writer, 1, input),
            Argument::Result(command) => put_variant(writer, 2, command),
            Argument::Nested(command, result) => put_variant_of_two(writer, 3, command, result),
        }
    }

    fn read_from(alloc: Global, reader: &mut Reader) -> Result<Self, Unread> {
        match reader.tag(4)? {
            0 => Ok(Argument::Gas),
            1 => {
                let input = reader.u16()?;
                Ok(Argument::Input(input))
            }
            2 => {
                let command = reader.u16()?;
                Ok(Argument::Result(command))
            }
            _ => {
                let (command, result) = Wire::read_from(alloc, reader)?;
                Ok(Argument::Nested(command, result))
            }
        }
    }
}

#[tactic(auto, using(wire_bcs::specs::Wrote::parts), unfolding(crate::specs::Transactions::command))]
impl Wire for Command {
    ghost codec = { codecs.command };

    fn write_into(&self, writer: &mut Writer) -> Result<(), OutOfMemory> {
        match self {
            Command::Call { native, args } => put_variant_of_two(writer, 0, native, args),
            Command::Transfer { values, to } => put_variant_of_two(writer, 1, values, to),
            Command::Split { coin, amounts } => put_variant_of_two(writer, 2, coin, amounts),
            Command::Merge { target, sources } => put_variant_of_two(writer, 3, target, sources),
            Command::MakeVec { kind, values } => put_variant_of_two(writer, 5, kind, values),
        }
    }

    fn read_from(alloc: Global, reader: &mut Reader) -> Result<Self, Unread> {
        let start = reader.mark();
        match reader.tag(6)? {
            0 => {
                let (native, args) = Wire::read_from(alloc, reader)?;
                Ok(Command::Call { native, args })
            }
            1 => {
                let (values, to) = Wire::read_from(alloc, reader)?;
                Ok(Command::Transfer { values, to })
            }
            2 => {
                let (coin, amounts) = Wire::read_from(alloc, reader)?;
                Ok(Command::Split { coin, amounts })
            }
            3 => {
                let (target, sources) = Wire::read_from(alloc, reader)?;
                Ok(Command::Merge { target, sources })
            }
            5 => {
                let (kind, values) = Wire::read_from(alloc, reader)?;
                Ok(Command::MakeVec { kind, values })
            }
            // There is no variant 4.
            _ => {
                *reader = start;
                Err(Unread::Wire(reader.fault(FaultKind::NoVariant)))
            }
        }
    }
}

impl Duplicate for Command {
    fn copy(&self) -> Result<Self, OutOfMemory> {
        Ok(match self {
            Command::Call { native, args } => Command::Call {
                native: *native,
                args: args.copy()?,
            },
            Command::Transfer { values, to } => Command::Transfer {
                values: values.copy()?,
                to: *to,
            },
            Command::Split { coin, amounts } => Command::Split {
                coin: *coin,
                amounts: amounts.copy()?,
            },
            Command::Merge { target, sources } => Command::Merge {
                target: *target,
                sources: sources.copy()?,
            },
            Command::MakeVec { kind, values } => Command::MakeVec {
                kind: *kind,
                values: values.copy()?,
            },
        })
    }
}

#[tactic(auto, using(wire_bcs::specs::Wrote::parts), unfolding(crate::specs::Transactions::transaction))]
impl Wire for Transaction {
    ghost codec = { codecs.transaction };

    fn write_into(&self, writer: &mut Writer) -> Result<(), OutOfMemory> {
        writer.put_u64(self.epoch)?;
        self.sender.write_into(writer)?;
        self.gas.write_into(writer)?;
        writer.put_u64(self.budget)?;
        self.inputs.write_into(writer)?;
        self.commands.write_into(writer)?;
        Ok(())
    }

    fn read_from(alloc: Global, reader: &mut Reader) -> Result<Self, Unread> {
        let (epoch, (sender, (gas, (budget, (inputs, commands))))) = Wire::read_from(
            alloc, reader,
        )?;
        Ok(Transaction {
            epoch,
            sender,
            gas,
            budget,
            inputs,
            commands,
        })
    }
}

impl Duplicate for Transaction {
    fn copy(&self) -> Result<Self, OutOfMemory> {
        Ok(Transaction {
            epoch: self.epoch,
            sender: self.sender,
            gas: self.gas,
            budget: self.budget,
            inputs: self.inputs.copy()?,
            commands: self.commands.copy()?,
        })
    }
}

#[tactic(auto, using(wire_bcs::specs::Wrote::parts), unfolding(crate::specs::Transactions::signed))]
impl Wire for SignedTx {
    ghost codec = { codecs.signed };

    fn write_into(&self, writer: &mut Writer) -> Result<(), OutOfMemory> {
        self.tx.write_into(writer)?;
        self.seal.write_into(writer)?;
        Ok(())
    }

    fn read_from(alloc: Global, reader: &mut Reader) -> Result<Self, Unread> {
        let (tx, seal) = Wire::read_from(alloc, reader)?;
        Ok(SignedTx { tx, seal })
    }
}

impl Duplicate for SignedTx {
    fn copy(&self) -> Result<Self, OutOfMemory> {
        Ok(SignedTx {
            tx: self.tx.copy()?,
            seal: self.seal,
        })
    }
}

/// The one encoding of a transaction. Its lists are at most 2147483647 long.
pub fn encode_tx(alloc: Global, tx: &Transaction) -> Result<Seq<u8>, OutOfMemory>
    requires { codecs.transaction.short tx.now }
    ensures { IfOk result (λ bytes. bytes ≡ codecs.transaction.spell tx.now) }
{
    encode(alloc, tx)
}

/// The digest of a transaction. Its lists are at most 2147483647 long.
#[tactic(auto, unfolding(crate::specs::Digests::transaction_digest))]
pub fn tx_digest(alloc: Global, tx: &Transaction) -> Result<Digest, OutOfMemory>
    requires { codecs.transaction.short tx.now }
    ensures { IfOk result (λ digest. digest ≡ transaction_digest tx.now) }
{
    let bytes = encode_tx(alloc, tx)?;
    Ok(digest_of(TAG_TRANSACTION, bytes.as_slice()))
}

/// The one encoding of a signed transaction. Its lists are at most 2147483647 long.
pub fn encode_signed(alloc: Global, signed: &SignedTx) -> Result<Seq<u8>, OutOfMemory>
    requires { codecs.signed.short signed.now }
    ensures { IfOk result (λ bytes. bytes ≡ codecs.signed.spell signed.now) }
{
    encode(alloc, signed)
}

/// The signed transaction that all the bytes encode. A fault comes exactly if there is none, and is the
/// first.
pub fn decode_signed(alloc: Global, bytes: &[u8]) -> Result<SignedTx, Unread>
    // The bytes are the encoding of the value, which is a value of its type.
    ensures found { IfOk result (λ x. (bytes.now ≡ codecs.signed.spell x) × codecs.signed.fits x) }
    // So it can be encoded again.
    ensures short { IfOk result codecs.signed.short }
    // A value that these bytes encode is read, unless memory runs out.
    ensures only { (x : _) → codecs.signed.fits x → bytes.now ≡ codecs.signed.spell x → Decodes bytes.now result (Ok x) }
    // Which fault it is.
    ensures exact { Decodes bytes.now result (whole codecs.signed bytes.now) }
{
    decode(alloc, bytes)
}
