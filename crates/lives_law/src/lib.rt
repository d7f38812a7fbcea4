//! Nothing that a member's process has said in its lives on one file is taken back by any of them.
#![tactic(auto)]

mod certified;
mod files;
mod lives;

pub use certified::one_owner_over_lives;
pub use files::files_live;
pub use lives::lives_law;
