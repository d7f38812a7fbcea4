//! The order in which objects are shown.

ghost use Rattle.std.specs.Prelude.{◌≡◌, [], IfOk, OnOk, Some, option_map};
ghost use Rattle.std.specs.BTreeMap.{values as values_in};
ghost use Rattle.world_spec.specs.Names.{drawn_rank, rank, shown_order};
ghost use Rattle.world_spec.specs.Known.{setting_with, world_with};
ghost use Rattle.world_lines.specs.KnownRows.{drawn_of};
ghost use Rattle.world_lines.specs.Shown.{all_shown, place_of, rank_as, with_shown};

use crate::directory::Directory;
use crate::rows::DrawnRow;
use chain_types::Object;
use std::alloc::Global;
use std::collections::BTreeMap;
use wire_bcs::{OutOfMemory, Seq};

/// An object's rank: set-up objects (group 0) by their lines, then created ones (group 1) by the line that
/// first made their transaction, and by number.
#[derive(Clone, Copy, Debug, PartialEq, Eq, PartialOrd, Ord)]
pub(crate) struct Rank {
    group: u8,
    place: usize,
    number: u64,
}

/// Where an object is shown: by its rank, and among objects of one rank by its place in the list.
#[derive(Clone, Copy, Debug, PartialEq, Eq, PartialOrd, Ord)]
pub(crate) struct Place {
    rank: Rank,
    index: usize,
}

/// The objects, in the order of their places.
fn values_of(alloc: Global, shown: BTreeMap<Place, Object>) -> Result<Vec<Object>, OutOfMemory>
    ensures { IfOk result (λ objects. objects.items ≡ values_in shown) }
{
    Ok(shown.into_values().collect(alloc)?)
}

impl Directory {
    /// The place of the first transaction with this digest, else the number of transactions. Takes no memory.
    fn line_of(&self, drawn: &DrawnRow) -> usize
        ensures { result ≡ (drawn_rank (world_with self.now) (Some (drawn_of drawn.now))).0 }
    {
        match self.txs.place_of(&drawn.tx) {
            Some(place) => place,
            None => self.txs.len(),
        }
    }

    /// The rank of an object that is not a set-up object. Takes no memory.
    fn drawn_rank(&self, drawn: Option<DrawnRow>) -> Rank
        ensures { rank_as result ≡ ((1, (drawn_rank (world_with self.now) (option_map drawn_of drawn)).0), (drawn_rank (world_with self.now) (option_map drawn_of drawn)).1) }
    {
        match drawn {
            Some(drawn) => Rank {
                group: 1,
                place: self.line_of(&drawn),
                number: drawn.number,
            },
            None => Rank {
                group: 1,
                place: self.txs.len(),
                number: 0,
            },
        }
    }

    /// The rank of an object.
    fn rank(&self, object: &Object) -> Result<Rank, OutOfMemory>
        ensures { IfOk result (λ r. rank_as r ≡ rank (setting_with self.now) (world_with self.now) object.now) }
    {
        match self.things.place_of(&object.id.0) {
            Some(place) => Ok(Rank {
                group: 0,
                place,
                number: 0,
            }),
            None => {
                let drawn = self.drawn.find(&object.id.0)?;
                Ok(self.drawn_rank(drawn))
            }
        }
    }

    /// Puts an object into its place after those that are there.
    fn show(&self, shown: &mut BTreeMap<Place, Object>, object: &Object) -> Result<(), OutOfMemory>
        ensures { OnOk result (shown.new.entries ≡ with_shown self.now shown.old.entries object.now) }
    {
        let place = Place {
            rank: self.rank(object)?,
            index: shown.len(),
        };
        shown.insert(place, *object)?;
        Ok(())
    }

    /// Puts all of the objects into their places.
    fn show_all(
        &self,
        shown: &mut BTreeMap<Place, Object>,
        objects: &[Object],
    ) -> Result<(), OutOfMemory>
        ensures { OnOk result (shown.new.entries ≡ all_shown self.now shown.old.entries objects.now) }
    {
        for object in objects {
            self.show(shown, object)?;
        }
        Ok(())
    }

    /// The objects in the order in which a report shows them: set-up objects by their lines, then created ones
    /// by the line that first made their transaction and by number, then the others, as the list has them. It
    /// costs a few look-ups for each object, and no scan.
    pub fn shown_order(&self, objects: &[Object]) -> Result<Seq<Object>, OutOfMemory>
        ensures { IfOk result (λ order. order ≡ shown_order (setting_with self.now) (world_with self.now) objects.now) }
    {
        let mut shown = BTreeMap::new(self.alloc);
        self.show_all(&mut shown, objects)?;
        let order = values_of(self.alloc, shown)?;
        Ok(Seq::from_vec(order))
    }
}
