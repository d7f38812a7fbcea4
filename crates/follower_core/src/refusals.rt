//! Why a checkpoint is not applied.

ghost use Rattle.std.specs.Prelude.{◌≡◌};
ghost use Rattle.follower_core.specs.declared.refusals.FollowRefusal.TheVariants as refused;

use checkpoint_core::LinkRefusal;
use digest_core::Digest;
use wire_bcs::OutOfMemory;

/// Why a checkpoint is not applied, in the order in which the cases are tried. Places are those of its transactions,
/// counted from 0, and the first bad place is reported.
#[derive(Clone, Copy)]
pub enum FollowRefusal {
    /// Memory was refused at an earlier checkpoint.
    Down,
    /// It does not go on from the last one that was applied.
    Link(LinkRefusal),
    /// It is of another epoch.
    Epoch {
        had: u64,
        want: u64,
    },
    /// It lists another number of transactions than were handed in.
    Count {
        had: u64,
        want: u64,
    },
    /// The transaction is not the one that is listed.
    WrongTx {
        place: u64,
    },
    /// The transaction cannot be executed after those before it.
    Stuck {
        place: u64,
    },
    /// What the transaction did is not what is listed.
    Differs {
        place: u64,
        had: Digest,
        want: Digest,
    },
    OutOfMemory,
}

impl From<OutOfMemory> for FollowRefusal {
    ghost from_gives = { λ _ given. given ≡ refused.OutOfMemory };

    fn from(_error: OutOfMemory) -> Self {
        FollowRefusal::OutOfMemory
    }
}
