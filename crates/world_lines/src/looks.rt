//! The transactions that lines made, by their digest and by their place.

ghost use Rattle.std.specs.Prelude.{◌≡◌, option_copied, option_map};
ghost use Rattle.world_lines.specs.Looks.{made_at, made_of};
ghost use Rattle.world_lines.specs.KnownRows.{made_as};

use crate::directory::Directory;
use crate::rows::MadeTx;
use digest_core::Digest;

impl Directory {
    /// The transaction of this digest, of the first line that made it; none exactly if no line did. Takes no memory.
    pub fn made_of(&self, tx: &Digest) -> Option<&MadeTx>
        ensures { option_map made_as (option_copied result) ≡ made_of self.now tx.now }
    {
        self.txs.find(tx)
    }

    /// The transaction of the line at this place, counted from 0; none exactly if no line stands there. Takes no
    /// memory.
    pub fn made_at(&self, place: usize) -> Option<&MadeTx>
        ensures { option_map made_as (option_copied result) ≡ made_at self.now place }
    {
        self.txs.row(place)
    }
}
