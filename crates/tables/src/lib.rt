//! Tables of what is kept: values by their name, the first name of each thing, and rows by a digest or a name.
//!
//! Names keep what came first: a name that is given again, or a thing that is named again, changes nothing. A
//! [`Table`] keeps rows in the order in which they came, and finds the first row of a digest, and its place; a
//! [`NamedTable`] finds the first row of a name too. Rows may share a digest or a name. Contracts see lists. A look-up
//! costs the hash of its key, and never a scan. Room that was made in a [`Table`] stays until rows fill it. So a caller
//! can make room in several of them first: after that no row is refused.
#![tactic(auto)]

mod entries;
mod first_names;
mod named_table;
mod names;
mod table;

pub use entries::{insert_in_room, insert_new};
pub use first_names::FirstNames;
pub use named_table::{Named, NamedTable};
pub use names::NameMap;
pub use table::{Keyed, Table};
