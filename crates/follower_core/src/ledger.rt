//! The live objects and what was done in the epoch, with changes that can be taken back without memory.

ghost use Rattle.std.specs.Prelude.{◌≡◌, ◌+◌, ◌<◌, ◌≤◌, ◌++◌, ◌∷◌, [], IfOk, OnErr, OnOk, cond, false, length, option_copied, fold};
ghost use Rattle.std.specs.FinMap.{empty, entries, get, values};
ghost use Rattle.std.specs.FinMap.Entries.{put};
ghost use Rattle.std.specs.BTreeMap.{values as values_in};
ghost use Rattle.std.specs.Map.{lookup};
ghost use Rattle.indexmap.specs.IndexMap.{index_map_len, spare};
ghost use Rattle.indexmap.specs.IndexSet.{insert_key};
ghost use Rattle.chain_types.specs.Equal.{id_eq};
ghost use Rattle.chain_types.specs.declared.objects.ObjectId.{ObjectId};
ghost use Rattle.protocol_spec.specs.Chain.Tests.{has_digest, has_id};
ghost use Rattle.protocol_spec.specs.Member.Sequential.{with_object, without_id};
ghost use Rattle.protocol_spec.specs.Member.Versions.{id_cmp};
ghost use Rattle.follower_core.specs.Courses.{is_held};
ghost use Rattle.follower_core.specs.Following.{turned};
ghost use Rattle.follower_core.specs.Ledgers.{changed_by, objects_under, overlaid};

use chain_types::{Object, ObjectId};
use digest_core::Digest;
use indexmap::{IndexMap, IndexSet};
use std::alloc::Global;
use std::collections::BTreeMap;
use std::marker::Model;
use tables::insert_in_room;
use wire_bcs::{OutOfMemory, Seq};

/// The live objects, the epoch's transactions and the ids that were deleted in it. Contracts see what is kept, and what
/// stands now: what was written since can be settled or taken back.
#[derive(Drop)]
pub(crate) struct Ledger {
    /// The objects that are kept, under their ids.
    objects: IndexMap<ObjectId, Object>,
    /// What stands now under an id that was written since: an object, or none.
    changes: IndexMap<ObjectId, Option<Object>>,
    /// The transactions, of which the first are kept.
    ran: IndexSet<Digest>,
    ran_kept: usize,
    /// The deleted ids, of which the first are kept.
    gone: IndexSet<ObjectId>,
    gone_kept: usize,
    alloc: Global,
}

impl Model for Ledger {
    ghost use Rattle.std.specs.Prelude.{◌≤◌, length};
    ghost use Rattle.std.specs.Coded.{codes};
    ghost use Rattle.std.specs.FinMap.{code};
    ghost use Rattle.follower_core.specs.Ledgers.{Ledger as Seen, ledger_as};

    ghost Value = { Seen };

    ghost coded = { Prim.hlevel (codes, code) };

    ghost view = { λ l. ledger_as l.objects.entries l.changes.entries l.ran_kept l.ran.keys l.gone_kept l.gone.keys };

    ghost invariant = { λ l. (l.ran_kept ≤ length l.ran.keys) × (l.gone_kept ≤ length l.gone.keys) };
}

/// What stands under an id: the change, if there is one, and else the object.
fn overlaid<'a>(
    changes: &'a IndexMap<ObjectId, Option<Object>>,
    objects: &'a IndexMap<ObjectId, Object>,
    id: &ObjectId,
) -> Option<&'a Object>
    ensures { option_copied result ≡ overlaid (lookup (id_eq id.now) changes.now.entries) (lookup (id_eq id.now) objects.now.entries) }
{
    match changes.get(id) {
        Some(change) => change.as_ref(),
        None => objects.get(id),
    }
}

/// Puts an object under an id, or takes out what is there; there is room.
#[tactic(auto, using(crate::proofs::Changing::written_at))]
fn settle_one(objects: &mut IndexMap<ObjectId, Object>, id: ObjectId, change: Option<Object>)
    requires { 0 < spare objects.old }
    ensures change { (other : ObjectId) → lookup (id_eq other) objects.new.entries ≡ cond (id_eq other id) change (lookup (id_eq other) objects.old.entries) }
    ensures room { spare objects.old ≤ spare objects.new + 1 }
{
    match change {
        Some(object) => insert_in_room(objects, id, object),
        None => {
            objects.swap_remove(&id);
        }
    }
}

/// Writes all changes into the objects, which have room for them, and leaves no changes.
fn settle_all(
    objects: &mut IndexMap<ObjectId, Object>,
    changes: &mut IndexMap<ObjectId, Option<Object>>,
)
    requires { index_map_len changes.old ≤ spare objects.old }
    ensures objects { objects_under objects.new.entries ≡ changed_by objects.old.entries changes.old.entries }
    ensures changes { changes.new.entries ≡ [] }
{
    while let Some((id, change)) = changes.pop() {
        settle_one(objects, id, change);
    }
}

/// Inserts an object of the hash map into the map that is ordered by id.
fn place_one(
    live: &mut BTreeMap<ObjectId, Object>,
    id: ObjectId,
    object: Object,
) -> Result<(), OutOfMemory>
    ensures { OnOk result (live.new.entries ≡ put id_cmp id object live.old.entries) }
{
    live.insert(id, object)?;
    Ok(())
}

/// The objects by ascending id.
#[tactic(auto, using(crate::proofs::Objects::all_placed))]
fn in_order(
    alloc: Global,
    objects: &IndexMap<ObjectId, Object>,
) -> Result<BTreeMap<ObjectId, Object>, OutOfMemory>
    ensures { IfOk result (λ m. m.entries ≡ entries (objects_under objects.now.entries)) }
{
    let mut live = BTreeMap::new(alloc);
    for (id, object) in objects.iter() {
        place_one(&mut live, *id, *object)?;
    }
    Ok(live)
}

/// The values of a map, in the order of its keys.
fn values_of(alloc: Global, map: BTreeMap<ObjectId, Object>) -> Result<Vec<Object>, OutOfMemory>
    ensures { IfOk result (λ v. v.items ≡ values_in map) }
{
    Ok(map.into_values().collect(alloc)?)
}

impl Ledger {
    /// A ledger without objects, applied transactions or deleted ids. Takes no memory.
    pub(crate) fn new(alloc: Global) -> Ledger
        ensures kept { result.kept ≡ record { map = empty; ran = []; gone = [] } }
        ensures present { result.present ≡ record { map = empty; ran = []; gone = [] } }
    {
        Ledger {
            objects: IndexMap::new(alloc),
            changes: IndexMap::new(alloc),
            ran: IndexSet::new(alloc),
            ran_kept: 0,
            gone: IndexSet::new(alloc),
            gone_kept: 0,
            alloc,
        }
    }

    /// The object under an id; none exactly if there is none. Takes no memory.
    #[tactic(auto, using(crate::proofs::Ledgers::got))]
    pub(crate) fn get(&self, id: &ObjectId) -> Option<&Object>
        ensures { option_copied result ≡ get self.now.present.map id.now }
    {
        overlaid(&self.changes, &self.objects, id)
    }

    /// Whether the transaction was applied in this epoch. Takes no memory.
    pub(crate) fn has_ran(&self, tx: &Digest) -> bool
        ensures { result ≡ has_digest self.now.present.ran tx.now }
    {
        self.ran.contains(tx)
    }

    /// Whether the id was deleted in this epoch. Takes no memory.
    pub(crate) fn is_gone(&self, id: &ObjectId) -> bool
        ensures { result ≡ has_id self.now.present.gone id.now }
    {
        self.gone.contains(id)
    }

    /// The objects that are kept, by ascending id. Time grows with their number.
    pub(crate) fn live_list(&self) -> Result<Seq<Object>, OutOfMemory>
        ensures { IfOk result (λ objects. objects ≡ values self.now.kept.map) }
    {
        let live = in_order(self.alloc, &self.objects)?;
        let objects = values_of(self.alloc, live)?;
        Ok(Seq::from_vec(objects))
    }

    /// Puts an object under its id.
    pub(crate) fn put(&mut self, object: &Object) -> Result<(), OutOfMemory>
        ensures kept { self.new.kept ≡ self.old.kept }
        ensures present { OnOk result (self.new.present ≡ record self.old.present { map = with_object self.old.present.map object.now }) }
    {
        self.changes.insert(object.id, Some(*object))?;
        Ok(())
    }

    /// Takes out what stands under an id, which counts as deleted in this epoch from then on.
    pub(crate) fn delete(&mut self, id: &ObjectId) -> Result<(), OutOfMemory>
        ensures kept { self.new.kept ≡ self.old.kept }
        ensures present { OnOk result (self.new.present ≡ record self.old.present { map = without_id self.old.present.map id.now; gone = insert_key id_eq self.old.present.gone id.now }) }
    {
        self.changes.insert(*id, None)?;
        self.gone.insert(*id)?;
        Ok(())
    }

    /// Adds a transaction that was not applied in this epoch.
    pub(crate) fn add_ran(&mut self, tx: &Digest) -> Result<(), OutOfMemory>
        requires { has_digest self.old.present.ran tx.now ≡ false }
        ensures kept { self.new.kept ≡ self.old.kept }
        ensures present { OnOk result (self.new.present ≡ record self.old.present { ran = self.old.present.ran ++ tx.now ∷ [] }) }
    {
        self.ran.insert(*tx)?;
        Ok(())
    }

    /// Keeps what stands now. A refusal changes nothing.
    pub(crate) fn settle(&mut self) -> Result<(), OutOfMemory>
        ensures kept { OnOk result (self.new.kept ≡ self.old.present) }
        ensures present { OnOk result (self.new.present ≡ self.old.present) }
        ensures err { OnErr result (self.new ≡ self.old) }
    {
        self.objects.reserve(self.changes.len())?;
        settle_all(&mut self.objects, &mut self.changes);
        self.ran_kept = self.ran.len();
        self.gone_kept = self.gone.len();
        Ok(())
    }

    /// Takes back what was written since. Takes no memory.
    pub(crate) fn take_back(&mut self)
        ensures kept { self.new.kept ≡ self.old.kept }
        ensures present { self.new.present ≡ self.old.kept }
    {
        self.changes.clear();
        self.ran.truncate(self.ran_kept);
        self.gone.truncate(self.gone_kept);
    }

    /// Begins a new epoch: nothing of it was applied or deleted. Takes no memory.
    pub(crate) fn turn(&mut self)
        ensures kept { self.new.kept ≡ turned self.old.kept }
        ensures present { self.new.present ≡ turned self.old.present }
    {
        self.ran.clear();
        self.ran_kept = 0;
        self.gone.clear();
        self.gone_kept = 0;
    }
}
