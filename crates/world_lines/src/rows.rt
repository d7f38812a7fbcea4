//! The rows of a directory.

ghost use Rattle.std.specs.Prelude.{◌≡◌};
ghost use Rattle.world_lines.specs.Drawn.{row_as};

use crate::shared_tx::SharedTx;
use chain_types::ObjectId;
use digest_core::{Digest, created_id};
use tables::{Keyed, Named};
use wire_bcs::Seq;

/// A transaction by the name of its line, with its encoding, which each vote for it takes.
#[derive(Debug, Drop)]
pub struct MadeTx {
    pub name: Seq<u8>,
    pub digest: Digest,
    pub signed: SharedTx,
}

/// A set-up object's name and id.
#[derive(Debug, Drop)]
pub(crate) struct ThingRow {
    pub(crate) name: Seq<u8>,
    pub(crate) id: ObjectId,
}

/// A user's name and address.
#[derive(Debug, Drop)]
pub(crate) struct UserRow {
    pub(crate) name: Seq<u8>,
    pub(crate) address: Digest,
}

/// An id that a transaction's creation number draws.
#[derive(Clone, Copy, Debug)]
pub(crate) struct DrawnRow {
    pub(crate) id: ObjectId,
    pub(crate) tx: Digest,
    pub(crate) number: u64,
}

impl DrawnRow {
    /// The row of the object that the transaction creates under this number, with its id. Takes no memory.
    pub(crate) fn new(tx: &Digest, number: u64) -> DrawnRow
        ensures { result ≡ row_as tx.now number }
    {
        DrawnRow {
            id: ObjectId(created_id(tx, number)),
            tx: *tx,
            number,
        }
    }
}

impl Keyed for MadeTx {
    ghost key_of = { λ r. r.digest };

    fn key(&self) -> Digest {
        self.digest
    }
}

impl Named for MadeTx {
    ghost name_of = { λ r. r.name };

    fn name(&self) -> &[u8] {
        self.name.as_slice()
    }
}

impl Keyed for ThingRow {
    ghost key_of = { λ r. r.id.0 };

    fn key(&self) -> Digest {
        self.id.0
    }
}

impl Named for ThingRow {
    ghost name_of = { λ r. r.name };

    fn name(&self) -> &[u8] {
        self.name.as_slice()
    }
}

impl Keyed for UserRow {
    ghost key_of = { λ r. r.address };

    fn key(&self) -> Digest {
        self.address
    }
}

impl Keyed for DrawnRow {
    ghost key_of = { λ r. r.id.0 };

    fn key(&self) -> Digest {
        self.id.0
    }
}
