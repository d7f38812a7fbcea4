//! What the slot of a desk holds: a clerk, and the entries of its calls.

ghost use Rattle.std.specs.Prelude.{◌≡◌, IfOk, OnErr};

use crate::clerk::Clerk;
use std::snapshot::Snapshot;
use wire_bcs::OutOfMemory;

/// The clerk as a desk was opened with it. It has no bytes, and is only for contracts.
#[derive(Drop)]
pub struct Opened<C: Clerk> {
    clerk: Snapshot<C>,
}

impl<C: Clerk> Opened<C> {
    pub(crate) fn with(clerk: &C) -> Opened<C>
        ensures { result.clerk.value ≡ clerk.now }
    {
        Opened {
            clerk: Snapshot::of(clerk),
        }
    }
}

/// A clerk, and the entries of the calls that were made of it.
#[derive(Drop)]
pub struct Kept<C: Clerk> {
    pub clerk: C,
    pub entries: Vec<C::Entry>,
}

impl<C: Clerk> Kept<C> {
    ghost use Rattle.vote_desk.specs.Kept.{MakesCall};

    // One call. Room for the entry is made before it, and if that is refused, nothing is asked and nothing changes.
    pub(crate) fn call(&mut self, request: C::Request) -> Result<C::Reply, OutOfMemory>
        ensures made { IfOk result (λ reply. MakesCall C.step C.state C.tells self.old self.new request reply) }
        ensures clerk { OnErr result (self.new.clerk ≡ self.old.clerk) }
        ensures entries { OnErr result (self.new.entries.items ≡ self.old.entries.items) }
    {
        self.entries.reserve(1)?;
        let (reply, entry) = self.clerk.answer(request);
        self.entries.push_reserved(entry);
        Ok(reply)
    }
}
