//! Execution of programmable transaction blocks (Sui documentation).
//!
//! [`fits`] says whether objects are those that a transaction names, and takes no memory. [`execute`]
//! gives the effects of a transaction of valid shape on objects that fit it, and the objects that it
//! writes. The status of the effects says what fails in the block; the only error of a call is that
//! memory is refused. Both cost time in proportion to the commands, their arguments and the objects, and
//! each argument and each object is found without a scan.
#![tactic(auto)]

mod block;
mod calls;
mod causes;
mod commands;
mod digested;
mod drawn;
mod execution;
mod fitting;
mod halt;
mod hashed;
mod left;
mod needs;
mod opening;
mod remains;
mod run;
mod slots;
mod step;
mod value;
mod written;

pub use execution::execute;
pub use fitting::{fits, fits_hashed};
pub use hashed::{HashedExecuted, execute_hashed};
