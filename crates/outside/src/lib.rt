//! The outside of the program: where bytes come from, where they go, and where records are kept.
//!
//! Three traits, each with a count of faults that never falls: a call answers `Failed` only if
//! that count rose in the call. What a value has left, holds or keeps is shown by the
//! implementations in memory ([`MemSource`], [`FreeSource`], [`MemSink`], [`NarrowSink`],
//! [`MemKeeper`]) and may stay unobservable in others ([`AlteredKeeper`]); a clause claims nothing of what
//! is unobservable. [`read_text`] reads a source to its end or past a limit, and [`write_all`] writes bytes whole.
#![tactic(auto)]

mod altered;
mod faults;
mod keeper;
mod narrow;
mod sink;
mod source;
mod streams;
mod turns;

pub use altered::AlteredKeeper;
pub use faults::{Failed, OutFault};
pub use keeper::{Keeper, MemKeeper};
pub use narrow::NarrowSink;
pub use sink::{MemSink, Sink};
pub use source::{FreeSource, MemSource, Source};
pub use streams::{read_text, write_all};
pub use turns::Turns;
