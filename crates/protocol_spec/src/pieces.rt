//! The pieces of a block.

use chain_types::{Content, Object, ObjectId, Owner};
use effects_core::Effects;
use wire_bcs::Seq;

/// An object inside a block. `fresh` says that this block created it.
#[derive(Clone, Copy, Debug, PartialEq, Eq)]
pub struct Item {
    pub id: ObjectId,
    pub content: Content,
    pub fresh: bool,
}

/// An argument of a native, as it is handed over.
#[derive(Debug, Drop)]
pub enum Given {
    Number(u64),
    Item(Item),
    Items(Seq<Item>),
}

/// An object that left the block to an owner.
#[derive(Clone, Copy, Debug, PartialEq, Eq)]
pub struct Placed {
    pub item: Item,
    pub owner: Owner,
}

/// What a native gives.
#[derive(Debug, Drop)]
pub enum Gave {
    /// The results, in order; the object that was handed over by mutable reference, as it is now;
    /// the object that was given an owner; and the number of the next creation.
    Done {
        results: Seq<Item>,
        changed: Option<Item>,
        placed: Option<Placed>,
        made: u32,
    },
    /// The code, 1 to 3.
    Abort(u8),
}

/// What the execution of a transaction leaves: its effects, and the objects that they list.
#[derive(Debug, Drop)]
pub struct Executed {
    pub effects: Effects,
    pub objects: Seq<Object>,
}
