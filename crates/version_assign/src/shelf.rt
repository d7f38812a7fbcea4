//! Places that stand under names.

ghost use Rattle.std.specs.Prelude.{◌≡◌, ℕ, IfOk, OnOk, true, false};
ghost use Rattle.std.specs.Ordering.{nat_cmp};
ghost use Rattle.std.specs.BTreeSet.{contains};
ghost use Rattle.digest_core.specs.declared.Digest.{Digest as Name};
ghost use Rattle.chain_types.specs.Equal.{digest_eq};
ghost use Rattle.version_assign.specs.Waiting.{KeepsShelf, Pops, is_in, is_under};

use digest_core::Digest;
use indexmap::IndexMap;
use std::alloc::Global;
use std::collections::BTreeSet;
use wire_bcs::OutOfMemory;

/// A set of one place.
fn one_place(alloc: Global, place: usize) -> Result<BTreeSet<usize>, OutOfMemory>
    ensures { IfOk result (λ set. contains nat_cmp set place ≡ true) }
{
    let mut set = BTreeSet::new(alloc);
    set.insert(place)?;
    Ok(set)
}

/// Puts a place under a name. What stood there stands there, whatever the result.
pub(crate) fn add_place(
    alloc: Global,
    shelf: &mut IndexMap<Digest, BTreeSet<usize>>,
    name: Digest,
    place: usize,
) -> Result<(), OutOfMemory>
    ensures kept { KeepsShelf shelf.old.entries shelf.new.entries }
    ensures added { OnOk result (is_under shelf.new.entries name place ≡ true) }
{
    if let Some(set) = shelf.get_mut(&name) {
        set.insert(place)?;
        return Ok(());
    }
    shelf.insert(name, one_place(alloc, place)?)?;
    Ok(())
}

/// Takes out the least place under a name. Takes no memory.
pub(crate) fn pop_place(
    shelf: &mut IndexMap<Digest, BTreeSet<usize>>,
    name: &Digest,
) -> Option<usize>
    ensures { Pops shelf.old.entries shelf.new.entries name.now result }
{
    match shelf.get_mut(name) {
        Some(set) => set.pop_first(),
        None => None,
    }
}

/// Takes out all places under a name. Takes no memory.
pub(crate) fn take_places(
    shelf: &mut IndexMap<Digest, BTreeSet<usize>>,
    name: &Digest,
) -> Option<BTreeSet<usize>>
    ensures taken { (q : ℕ) → is_under shelf.old.entries name.now q ≡ is_in result q }
    ensures others { (other : Name) (q : ℕ) → digest_eq name.now other ≡ false → is_under shelf.new.entries other q ≡ is_under shelf.old.entries other q }
{
    shelf.swap_remove(name)
}
