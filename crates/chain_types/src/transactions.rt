//! Transactions: programmable blocks of commands (Sui documentation).

use crate::objects::{Address, Kind, ObjectId, ObjectRef};
use digest_core::Digest;
use wire_bcs::Seq;

/// One input of a block.
#[derive(Debug, Drop)]
pub enum Input {
    /// Bytes, with no object.
    Pure(Seq<u8>),
    /// An object of the sender, consumed at this version.
    Owned(ObjectRef),
    /// An immutable object.
    Immutable(ObjectRef),
    /// A shared object, whose version consensus assigns; `mutable` says whether it is written.
    Shared {
        id: ObjectId,
        initial: u64,
        mutable: bool,
    },
}

/// What a command is applied to.
#[derive(Clone, Copy, Debug, PartialEq, Eq)]
pub enum Argument {
    /// The gas coin.
    Gas,
    /// The input of this number.
    Input(u16),
    /// The one result of the command of this number.
    Result(u16),
    /// Of the command of the first number, the result of the second number.
    Nested(u16, u16),
}

/// One command of a block.
#[derive(Debug, Drop)]
pub enum Command {
    Call {
        native: u8,
        args: Seq<Argument>,
    },
    Transfer {
        values: Seq<Argument>,
        to: Argument,
    },
    Split {
        coin: Argument,
        amounts: Seq<Argument>,
    },
    Merge {
        target: Argument,
        sources: Seq<Argument>,
    },
    MakeVec {
        kind: Kind,
        values: Seq<Argument>,
    },
}

/// A block, who sends it and what pays for it. The budget is in units of currency 0.
#[derive(Debug, Drop)]
pub struct Transaction {
    pub epoch: u64,
    pub sender: Address,
    pub gas: ObjectRef,
    pub budget: u64,
    pub inputs: Seq<Input>,
    pub commands: Seq<Command>,
}

/// A transaction with its sender's seal.
#[derive(Debug, Drop)]
pub struct SignedTx {
    pub tx: Transaction,
    pub seal: Digest,
}
