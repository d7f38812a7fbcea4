//! A validator: a member with its journal and its sealer, and what its calls take and answer.
//!
//! [`Member::open`] opens a member from a committee, the objects of its first epoch and what its journal holds. `vote` and
//! `hold` are for transactions and certificates, `see` for the entries of the sequence, `run` executes; `close`, `end` and
//! `turn` end an epoch, and `ack` acknowledges what was executed. Nothing is required of a caller: each condition is a
//! refusal, or a type.

pub use crate::disk_journal::DiskJournal;
pub use crate::errors::Error;
pub use crate::journal::{FirstList, Journal};
pub use crate::journals::{MemJournal, journal_in_memory, journal_over_disk};
pub use crate::member::Member;
pub use crate::opening::OpenRefusal;
pub use crate::workers::Workers;
pub use chain_types::CertRefusal;
pub use disk_log::{Disk, MemDisk, OpenRefusal as DiskRefusal};
pub use outside::{Keeper, OutFault};
pub use protocol_spec::{
    AckRefusal, CloseRefusal, EndRefusal, HoldRefusal, Ran, RunRefusal, SeeRefusal, Seen, SeenWhat,
    TurnRefusal, VoteRefusal, Voted,
};
pub use quorum_core::{Committee, CommitteeRefusal, KeyedSeal, Sealer, Signer};
