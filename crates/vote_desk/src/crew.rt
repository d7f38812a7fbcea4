//! What callers share, and what each of them carries.

ghost use Rattle.std.specs.Prelude.{◌<◌};

use crate::desk::{Desk, DeskPass};
use outside::Keeper;
use quorum_core::Sealer;
use wire_bcs::Seq;

/// What all callers share: the desk, and the requests that they ask for in turns.
#[derive(Drop)]
pub(crate) struct Crew<'a, R, D: Keeper + Drop, S: Sealer + Drop> {
    pub(crate) rt: &'a R,
    pub(crate) desk: &'a Desk<D, S>,
    pub(crate) requests: &'a [Seq<u8>],
    pub(crate) callers: u32,
    ghost some: { 0 < callers },
}

/// What a caller brings and takes back: a pass, and whether it could ask for each of its requests.
#[derive(Drop)]
pub(crate) struct Turn<D: Keeper + Drop, S: Sealer + Drop> {
    pub(crate) pass: DeskPass<D, S>,
    pub(crate) whole: bool,
}
