//! One member of the committee.
//!
//! A [`Validator`] answers each request as the Sui Lutris paper says, from what it holds, and keeps a record of
//! each answer that binds it: the record is appended to the keeper before the call answers. So its state is a
//! function of its records, and a member that stopped starts again from them. A member whose record was not
//! kept, or that was refused memory, is down until it is started again. A member sees the entries of its epoch's
//! sequence, runs what it holds in rounds, builds a checkpoint as soon as all that a cut has is done, and closes its
//! epoch, and turns to the next one.
//!
//! Within, a `State` has the votes given in the epoch, and an `EpochState`: its versions, the certificates held, the
//! sequence as it was seen, and the checkpoints. A call is decided, its record is appended, and the state takes it before
//! the call answers; a run executes first, and its record is appended after that. A start takes the records in the same
//! way.
#![tactic(auto)]

mod calls;
mod entries;
mod epoch_calls;
mod epoch_state;
mod holds;
mod keeping;
mod looks;
mod renewal;
mod replay;
mod runs;
mod sees;
mod start;
mod state;
mod stating;
mod taking;
mod turning;
mod validator;
mod votes;

pub use protocol_spec::{
    AckRefusal, CloseRefusal, EndRefusal, HoldRefusal, Ran, RunRefusal, StartRefusal, VoteRefusal,
    Voted,
};
pub use validator::Validator;
