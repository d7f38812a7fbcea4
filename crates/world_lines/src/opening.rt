//! What the set-up lines make: the stakes, which members are honest, and objects with distinct ids.

ghost use Rattle.std.specs.Prelude.{◌≡◌, ◌++◌, ◌∷◌, [], IfOk, OnOk, false, fold, map, true};
ghost use Rattle.world_spec.specs.Setting.{honest_of, stakes_of, with_new, writers_of};
ghost use Rattle.world_lines.specs.Openings.{has_id, object_id, with_flag, with_stake};

use chain_types::{Object, ObjectId};
use indexmap::IndexSet;
use schedule_text::Setup;
use std::alloc::Global;
use wire_bcs::OutOfMemory;

/// Adds the stake of a line that makes a member.
fn add_stake(stakes: &mut Vec<u32>, line: &Setup) -> Result<(), OutOfMemory>
    ensures { OnOk result (stakes.new.items ≡ with_stake stakes.old.items line.now) }
{
    match line {
        Setup::Member { stake, .. } => {
            stakes.push(*stake)?;
            Ok(())
        }
        Setup::Coin { .. } | Setup::Counter { .. } | Setup::Cap { .. } | Setup::Writers(_) => {
            Ok(())
        }
    }
}

/// Adds the stakes of the lines.
fn add_stakes(stakes: &mut Vec<u32>, setup: &[Setup]) -> Result<(), OutOfMemory>
    ensures { OnOk result (stakes.new.items ≡ fold with_stake stakes.old.items setup.now) }
{
    for line in setup {
        add_stake(stakes, line)?;
    }
    Ok(())
}

/// The stakes of the members, by their numbers.
#[tactic(auto, using(crate::proofs::SetUpLines::all_stakes))]
pub fn stakes_of(alloc: Global, setup: &[Setup]) -> Result<Vec<u32>, OutOfMemory>
    ensures { IfOk result (λ stakes. stakes.items ≡ stakes_of setup.now) }
{
    let mut stakes = Vec::new(alloc);
    add_stakes(&mut stakes, setup)?;
    Ok(stakes)
}

/// The limit of writers, if a line gives one. Takes no memory.
pub fn writers_of(setup: &[Setup]) -> Option<u32>
    ensures { result ≡ writers_of setup.now }
{
    let mut rest = setup;
    while let [line, after @ ..] = rest {
        if let Setup::Writers(limit) = line {
            return Some(*limit);
        }
        rest = after;
    }
    None
}

/// Adds the flag of a line that makes a member.
fn add_flag(flags: &mut Vec<bool>, line: &Setup) -> Result<(), OutOfMemory>
    ensures { OnOk result (flags.new.items ≡ with_flag flags.old.items line.now) }
{
    match line {
        Setup::Member { honest, .. } => {
            flags.push(*honest)?;
            Ok(())
        }
        Setup::Coin { .. } | Setup::Counter { .. } | Setup::Cap { .. } | Setup::Writers(_) => {
            Ok(())
        }
    }
}

/// Adds the flags of the lines.
fn add_flags(flags: &mut Vec<bool>, setup: &[Setup]) -> Result<(), OutOfMemory>
    ensures { OnOk result (flags.new.items ≡ fold with_flag flags.old.items setup.now) }
{
    for line in setup {
        add_flag(flags, line)?;
    }
    Ok(())
}

/// Which members are honest, by their numbers.
#[tactic(auto, using(crate::proofs::SetUpLines::all_flags))]
pub fn honest_of(alloc: Global, setup: &[Setup]) -> Result<Vec<bool>, OutOfMemory>
    ensures { IfOk result (λ flags. flags.items ≡ honest_of setup.now) }
{
    let mut flags = Vec::new(alloc);
    add_flags(&mut flags, setup)?;
    Ok(flags)
}

/// Adds an id that is not in the set yet.
fn insert_new_id(seen: &mut IndexSet<ObjectId>, id: ObjectId) -> Result<(), OutOfMemory>
    requires { has_id seen.old.keys id ≡ false }
    ensures { OnOk result (seen.new.keys ≡ seen.old.keys ++ id ∷ []) }
{
    seen.insert(id)?;
    Ok(())
}

/// Whether an id is in the set. Takes no memory.
fn is_seen(seen: &IndexSet<ObjectId>, id: &ObjectId) -> bool
    ensures { result ≡ has_id seen.now.keys id.now }
{
    seen.contains(id)
}

/// Adds an object, unless an earlier one has its id; `seen` has the ids of those that are there.
#[tactic(auto, using(crate::proofs::Opened::left_out, crate::proofs::Opened::added, crate::proofs::Opened::id_added))]
fn add_new(
    objects: &mut Vec<Object>,
    seen: &mut IndexSet<ObjectId>,
    object: &Object,
) -> Result<(), OutOfMemory>
    requires { seen.old.keys ≡ map object_id objects.old.items }
    ensures objects { OnOk result (objects.new.items ≡ with_new objects.old.items object.now) }
    ensures seen { OnOk result (seen.new.keys ≡ map object_id objects.new.items) }
{
    if is_seen(seen, &object.id) {
        return Ok(());
    }
    insert_new_id(seen, object.id)?;
    objects.push(*object)?;
    Ok(())
}

/// Adds the objects, without those whose id an earlier one has.
fn add_all_new(
    kept: &mut Vec<Object>,
    seen: &mut IndexSet<ObjectId>,
    objects: &[Object],
) -> Result<(), OutOfMemory>
    requires { seen.old.keys ≡ map object_id kept.old.items }
    ensures { OnOk result (kept.new.items ≡ fold with_new kept.old.items objects.now) }
{
    for object in objects {
        add_new(kept, seen, object)?;
    }
    Ok(())
}

/// The objects without those whose id an earlier one has.
pub(crate) fn without_repeats(alloc: Global, objects: &[Object]) -> Result<Vec<Object>, OutOfMemory>
    ensures { IfOk result (λ kept. kept.items ≡ fold with_new [] objects.now) }
{
    let mut kept = Vec::new(alloc);
    let mut seen = IndexSet::new(alloc);
    add_all_new(&mut kept, &mut seen, objects)?;
    Ok(kept)
}
