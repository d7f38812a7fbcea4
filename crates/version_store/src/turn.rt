//! The change to the next epoch.

ghost use Rattle.std.specs.Prelude.{◌≡◌, OnErr, OnOk};
ghost use Rattle.version_store.specs.Stores.{next_epoch};

use crate::base::{add_newest, take_out};
use crate::maps::Maps;
use crate::store::Store;
use std::mem::replace;
use wire_bcs::OutOfMemory;

impl Store {
    /// Opens the next epoch with the live objects, and with nothing executed. A refusal changes nothing.
    /// Time grows with what was written and deleted in the epoch, and not with what is held.
    pub fn turn(&mut self) -> Result<(), OutOfMemory>
        ensures ok { OnOk result (self.new ≡ next_epoch self.old) }
        ensures err { OnErr result (self.new ≡ self.old) }
    {
        self.base.reserve(self.maps.newest.len())?;
        add_newest(&mut self.base, &self.maps.newest);
        take_out(&mut self.base, &self.maps.deleted);
        // A map's count says that no id comes twice.
        let _held = self.base.len();
        drop(replace(&mut self.maps, Maps::new(self.alloc)));
        self.opened = 0;
        self.turned = true;
        Ok(())
    }
}
