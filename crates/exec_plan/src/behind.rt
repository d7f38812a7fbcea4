//! Places that are kept under transactions.

ghost use Rattle.std.specs.Prelude.{◌≡◌, ◌++◌, ◌∷◌, [], IfOk, OnErr, OnOk, false, unwrap_or};
ghost use Rattle.digest_core.specs.declared.Digest.{Digest as Key};
ghost use Rattle.chain_types.specs.Equal.{digest_eq};
ghost use Rattle.protocol_spec.specs.Chain.Words.{Has};
ghost use Rattle.exec_plan.specs.Behind.{Frees, KeepsListed, listed};

use digest_core::Digest;
use indexmap::IndexMap;
use std::alloc::Global;
use wire_bcs::{OutOfMemory, Seq};

/// A list of one place.
fn one_place(alloc: Global, place: usize) -> Result<Seq<usize>, OutOfMemory>
    ensures { IfOk result (λ places. places ≡ place ∷ []) }
{
    let mut places = Seq::new(alloc);
    places.push(place)?;
    Ok(places)
}

/// Adds a place under a transaction. What was kept is kept, whatever the result.
pub(crate) fn add_behind(
    alloc: Global,
    behind: &mut IndexMap<Digest, Seq<usize>>,
    tx: Digest,
    place: usize,
) -> Result<(), OutOfMemory>
    ensures kept { KeepsListed behind.old.entries behind.new.entries }
    ensures added { OnOk result (Has (listed behind.new.entries tx) place) }
{
    if let Some(places) = behind.get_mut(&tx) {
        return places.push(place);
    }
    behind.insert(tx, one_place(alloc, place)?)?;
    Ok(())
}

/// Takes out the places under a transaction. Takes no memory.
fn take_behind(behind: &mut IndexMap<Digest, Seq<usize>>, tx: &Digest) -> Option<Seq<usize>>
    ensures taken { listed behind.old.entries tx.now ≡ unwrap_or result [] }
    ensures others { (d : Key) → digest_eq tx.now d ≡ false → listed behind.new.entries d ≡ listed behind.old.entries d }
{
    behind.swap_remove(tx)
}

/// Takes out the places under a transaction, and adds them to those that were freed.
fn free_one(
    behind: &mut IndexMap<Digest, Seq<usize>>,
    freed: &mut Seq<usize>,
    tx: &Digest,
) -> Result<(), OutOfMemory>
    ensures freed { OnOk result (freed.new ≡ freed.old ++ listed behind.old.entries tx.now) }
    ensures others { OnOk result ((d : Key) → digest_eq tx.now d ≡ false → listed behind.new.entries d ≡ listed behind.old.entries d) }
{
    match take_behind(behind, tx) {
        Some(places) => freed.extend(places.as_slice()),
        None => Ok(()),
    }
}

/// Takes out the places under these transactions.
pub(crate) fn free_behind(
    alloc: Global,
    behind: &mut IndexMap<Digest, Seq<usize>>,
    txs: &[Digest],
) -> Result<Seq<usize>, OutOfMemory>
    ensures { IfOk result (λ freed. Frees behind.old.entries behind.new.entries freed [] txs.now) }
{
    let mut freed = Seq::new(alloc);
    let mut rest = txs;
    while let [tx, after @ ..] = rest {
        free_one(behind, &mut freed, tx)?;
        rest = after;
    }
    Ok(freed)
}
