//! The words of a schedule. A name is a list of bytes; a native or a kind is its number.

use wire_bcs::Seq;

/// The lines of a schedule, in order.
#[derive(Drop)]
pub struct Schedule {
    /// The set-up lines.
    pub setup: Seq<Setup>,
    /// The event lines.
    pub events: Seq<Event>,
}

/// A set-up line.
#[derive(Drop)]
pub enum Setup {
    /// `member STAKE honest` or `member STAKE faulty`.
    Member {
        stake: u32,
        honest: bool,
    },
    /// `coin NAME OWNER BALANCE`: a coin of currency 0.
    Coin {
        name: Seq<u8>,
        owner: Seq<u8>,
        balance: u64,
    },
    /// `counter NAME VALUE`: a shared counter.
    Counter {
        name: Seq<u8>,
        value: u64,
    },
    /// `cap NAME OWNER CURRENCY`: the right to mint a currency.
    Cap {
        name: Seq<u8>,
        owner: Seq<u8>,
        currency: u64,
    },
    /// `writers N`: the limit of writers for each shared object and commit.
    Writers(u32),
}

/// An event line.
#[derive(Drop)]
pub enum Event {
    /// `tx NAME SENDER EPOCH REF BUDGET`, then input words and command words.
    Tx {
        name: Seq<u8>,
        sender: Seq<u8>,
        /// A `?` after the sender: the sender's seal is spoiled.
        spoiled: bool,
        epoch: u64,
        gas: RefWord,
        budget: u64,
        inputs: Seq<InputWord>,
        commands: Seq<CommandWord>,
    },
    /// `vote M T`.
    Vote {
        member: u32,
        tx: Seq<u8>,
    },
    /// `fvote M T` and origin words, `-` or a transaction each.
    Fvote {
        member: u32,
        tx: Seq<u8>,
        origins: Seq<Option<Seq<u8>>>,
    },
    /// `cert T M` and further members.
    Cert {
        tx: Seq<u8>,
        members: Seq<u32>,
    },
    /// `send M T`.
    Send {
        member: u32,
        tx: Seq<u8>,
    },
    /// `order T`.
    Order(Seq<u8>),
    /// `order end M`.
    OrderEnd(u32),
    /// `order commit`.
    OrderCommit,
    /// `see M N`.
    See {
        member: u32,
        entries: u32,
    },
    /// `run M WORKERS`.
    Run {
        member: u32,
        workers: u32,
    },
    /// `close M`.
    Close(u32),
    /// `end M`.
    End(u32),
    /// `turn M`.
    Turn(u32),
    /// `show M`.
    Show(u32),
    /// `stop M kept` or `stop M lost`.
    Stop {
        member: u32,
        kept: bool,
    },
    /// `restart M`.
    Restart(u32),
    /// `raw M vote HEX`.
    RawVote {
        member: u32,
        bytes: Seq<u8>,
    },
    /// `raw M hold HEX`.
    RawHold {
        member: u32,
        bytes: Seq<u8>,
    },
    /// `ack M T`, or `ack M T !` with a spoiled digest.
    Ack {
        member: u32,
        tx: Seq<u8>,
        spoiled: bool,
    },
    /// `final T M` and further members.
    Final {
        tx: Seq<u8>,
        members: Seq<u32>,
    },
}

/// An object: the name of a set-up line, or `T.N`, the object that `tx` created with this number.
#[derive(Drop)]
pub enum ObjWord {
    /// The name of a coin, a counter or a cap.
    Setup(Seq<u8>),
    /// A created object.
    Created { tx: Seq<u8>, number: u64 },
}

/// `OBJ@V`, or `OBJ@V!` with a spoiled digest.
#[derive(Drop)]
pub struct RefWord {
    pub object: ObjWord,
    pub version: u64,
    /// A `!` after the version: the digest is spoiled.
    pub spoiled: bool,
}

/// An input of a transaction.
#[derive(Drop)]
pub enum InputWord {
    /// `n:NUMBER`.
    Number(u64),
    /// `a:NAME`.
    Address(Seq<u8>),
    /// `x:HEX`.
    Bytes(Seq<u8>),
    /// `o:REF`.
    Owned(RefWord),
    /// `i:REF`.
    Immutable(RefWord),
    /// `s:OBJ@V`, mutable, or `r:OBJ@V`, read-only.
    Shared {
        object: ObjWord,
        initial: u64,
        mutable: bool,
    },
}

/// A command of a transaction.
#[derive(Drop)]
pub enum CommandWord {
    /// `split(COIN,AMOUNT,..)`: all words between the parentheses.
    Split(Seq<ArgWord>),
    /// `merge(TARGET,SOURCE,..)`: all words between the parentheses.
    Merge(Seq<ArgWord>),
    /// `transfer(VALUE,..,ADDRESS)`: all words between the parentheses.
    Transfer(Seq<ArgWord>),
    /// `vec(KIND,VALUE,..)`: coin 0, cap 1, counter 2, vault 3, key 4, limit 5.
    MakeVec { kind: u8, values: Seq<ArgWord> },
    /// A native's name and its arguments.
    Call { native: u8, args: Seq<ArgWord> },
}

/// An argument of a command.
#[derive(Clone, Copy)]
pub enum ArgWord {
    /// `gas`.
    Gas,
    /// `iN`.
    Input(u16),
    /// `rN`.
    Result(u16),
    /// `rN.K`.
    Nested(u16, u16),
}

/// Why bytes are not a schedule, or were not read.
#[derive(Clone, Copy, Debug, PartialEq, Eq)]
pub enum ScheduleRefusal {
    /// The first bad line, counted from 1, or line 0 for the whole text; and the cause, 1 to 13.
    Refused { line: u64, cause: u8 },
    /// Memory was refused.
    OutOfMemory,
}
