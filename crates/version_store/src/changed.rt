//! Which objects an epoch changed, and a store of nothing.

ghost use Rattle.std.specs.Prelude.{◌≡◌, ◌++◌, [], IfOk, OnOk};
ghost use Rattle.indexmap.specs.IndexMap.{keys};
ghost use Rattle.version_store.specs.Changed.{AreChanged};

use crate::maps::Maps;
use crate::store::Store;
use chain_types::{HashedObject, ObjectId};
use indexmap::{IndexMap, IndexSet};
use std::alloc::Global;
use wire_bcs::{OutOfMemory, Seq};

/// The keys of a map from id to object.
fn ids_of(
    alloc: Global,
    newest: &IndexMap<ObjectId, HashedObject>,
) -> Result<Vec<ObjectId>, OutOfMemory>
    ensures { IfOk result (λ ids. ids.items ≡ keys newest.now) }
{
    Ok(newest.keys().copied().collect(alloc)?)
}

/// Appends these ids to the list.
fn add_each(ids: &mut Vec<ObjectId>, more: &IndexSet<ObjectId>) -> Result<(), OutOfMemory>
    ensures { OnOk result (ids.new.items ≡ ids.old.items ++ more.now.keys) }
{
    for id in more.iter() {
        ids.push(*id)?;
    }
    Ok(())
}

impl Store {
    /// A store that holds nothing. Takes no memory.
    pub fn empty(alloc: Global) -> Store
        ensures { result ≡ record { opening = []; executed = [] } }
    {
        Store {
            base: IndexMap::new(alloc),
            turned: false,
            maps: Maps::new(alloc),
            opened: 0,
            alloc,
        }
    }

    /// The ids of which the epoch wrote or deleted a version: the live object of every other id is the one with which
    /// the epoch opened. Time grows with what was written and deleted, and not with what is held.
    #[tactic(auto, using(crate::proofs::Openings::untouched))]
    pub fn changed(&self) -> Result<Seq<ObjectId>, OutOfMemory>
        ensures { IfOk result (λ ids. AreChanged self.now ids) }
    {
        let mut ids = ids_of(self.alloc, &self.maps.newest)?;
        add_each(&mut ids, &self.maps.deleted)?;
        Ok(Seq::from_vec(ids))
    }
}
