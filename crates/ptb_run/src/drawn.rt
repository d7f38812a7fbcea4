//! The ids that a block drew, so that none is hashed again.

ghost use Rattle.std.specs.Prelude.{◌≡◌, ◌<◌, IfOk};
ghost use Rattle.ptb_run.specs.Drawn.{AreDrawn, drawn_id, new_ids};

use chain_types::ObjectId;
use digest_core::{Digest, created_id};
use protocol_spec::Item;
use std::alloc::Global;
use std::marker::Model;
use wire_bcs::{OutOfMemory, Seq};

/// The ids that a transaction drew, in the order of their numbers. Contracts see the transaction.
#[derive(Drop)]
pub(crate) struct DrawnIds {
    tx: Digest,
    ids: Seq<ObjectId>,
}

impl Model for DrawnIds {
    ghost use Rattle.digest_core.specs.declared.Digest.{Digest as TheDigest};
    ghost use Rattle.ptb_run.specs.Drawn.{AreDrawn};

    ghost Value = { TheDigest };

    ghost view = { λ d. d.tx };

    ghost invariant = { λ d. AreDrawn d.tx 0 d.ids };
}

/// The id of a creation number: one of those kept if it is there, else hashed anew.
fn read_or_hash(ids: &[ObjectId], tx: &Digest, number: u32) -> ObjectId
    requires { AreDrawn tx.now 0 ids.now }
    ensures { result ≡ drawn_id tx.now number }
{
    match ids.get(number as usize) {
        Some(id) => *id,
        None => ObjectId(created_id(tx, u64::from(number))),
    }
}

impl DrawnIds {
    /// None yet. Takes no memory.
    pub(crate) fn new(alloc: Global, tx: &Digest) -> DrawnIds {
        DrawnIds {
            tx: *tx,
            ids: Seq::new(alloc),
        }
    }

    /// Keeps an id, if it is the next one of the transaction.
    #[tactic(auto, using(crate::proofs::Keeping::kept, crate::proofs::Keeping::still))]
    fn keep(&mut self, tx: &Digest, number: u32, id: ObjectId) -> Result<(), OutOfMemory>
        requires { id ≡ drawn_id tx.now number }
    {
        if self.tx != *tx {
            return Ok(());
        }
        if self.ids.len() != u64::from(number) {
            return Ok(());
        }
        self.ids.push(id)?;
        Ok(())
    }

    /// Draws the id of this number, and keeps it.
    pub(crate) fn draw(&mut self, tx: &Digest, number: u32) -> Result<ObjectId, OutOfMemory>
        ensures { IfOk result (λ id. id ≡ drawn_id tx.now number) }
    {
        let id = ObjectId(created_id(tx, u64::from(number)));
        self.keep(tx, number, id)?;
        Ok(id)
    }

    /// Keeps the ids of the first two results of a native, if it drew any.
    #[tactic(auto, using(crate::proofs::Keeping::first_new, crate::proofs::Keeping::second_new))]
    pub(crate) fn keep_results(
        &mut self,
        tx: &Digest,
        before: u32,
        made: u32,
        results: &[Item],
    ) -> Result<(), OutOfMemory>
        requires room { before < 2147483136 }
        requires drawn { AreDrawn tx.now before (new_ids before made results.now) }
    {
        if made <= before {
            return Ok(());
        }
        let [first, others @ ..] = results else {
            return Ok(());
        };
        self.keep(tx, before, first.id)?;
        let [second, ..] = others else {
            return Ok(());
        };
        self.keep(tx, before + 1, second.id)
    }

    /// The id of this number, which is hashed only if it was not kept.
    #[tactic(auto, using(crate::proofs::Keeping::of_same))]
    pub(crate) fn id_of(&self, tx: &Digest, number: u32) -> ObjectId
        ensures { result ≡ drawn_id tx.now number }
    {
        if self.tx != *tx {
            return ObjectId(created_id(tx, u64::from(number)));
        }
        read_or_hash(self.ids.as_slice(), tx, number)
    }
}
