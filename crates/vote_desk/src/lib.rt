//! A member that callers on any threads ask for votes, one at a time, and the one history of their calls.
//!
//! A [`Desk`] keeps a validator, its keeper and its sealer. A caller asks with a [`DeskPass`]; `vote` waits for its
//! turn, lets the member answer, and leaves one [`DeskEntry`] in the history: the bytes, the reply and the keeper's
//! count of faults. Each reply is the member's answer after the calls before it, or says that the keeper failed or that
//! memory ran out; `close` gives the history and the member in its last state.
//!
//! Beneath stands the desk of any object. A [`SerialDesk`] keeps a [`Clerk`], which answers one request at a time, in the one
//! slot of a table, guarded by the one word of that table. Each caller has a [`Pass`]. A call waits until the slot is
//! home, takes it, lets the clerk answer, adds one entry to the history and gives the slot back. The desk rule holds
//! between any two steps, whatever the order in which threads make them: there is one history, in which each call is
//! one that the clerk may make in the state that the calls before it left, each pass has seen a prefix of it, and each
//! place of it stands in exactly one pass. `open` and `call` take memory, and only `call` waits. Nothing is claimed
//! about callers that run at the same time.
#![tactic(auto)]

mod bench;
mod callers;
mod clerk;
mod crew;
mod desk;
mod entry;
mod kept;
mod law;
mod serial;
mod standing;
mod sure;
mod view;

pub use callers::{answers_to_callers, ask_by_callers};
pub use clerk::Clerk;
pub use desk::{Desk, DeskPass, DeskRefusal};
pub use entry::DeskEntry;
pub use serial::{Pass, SerialDesk};
pub use standing::DeskView;
pub use sure::SureKeeper;
pub use view::View;
