//! The terms of a committee: stakes, and the limit of writers.

ghost use Rattle.std.specs.Prelude.{◌≡◌, ◌<◌, ◌^◌, length};
ghost use Rattle.world_spec.specs.Starts.{AreApart, started};
ghost use Rattle.world_spec.specs.Terms.{rules_for};
ghost use Rattle.validator_core.specs.Starts.{Starts};

use chain_types::Object;
use quorum_core::{Committee, Sealer};
use std::alloc::Global;
use std::marker::Model;
use validator_core::{StartRefusal, Validator};
use wire_bcs::Seq;

/// The stakes of the members, and the limit of writers of their sequences, if there is one. Contracts see the
/// definition's terms.
#[derive(Drop)]
pub struct Terms {
    pub committee: Committee,
    pub writers: Option<u32>,
}

impl Model for Terms {
    ghost use Rattle.world_spec.specs.Terms.{Terms};

    ghost Value = { Terms };

    ghost view = { λ t. record { stakes = t.committee; writers = t.writers } };
}

impl Terms {
    /// The terms of these stakes and this limit. Takes no memory.
    pub fn new(committee: &Committee, writers: Option<u32>) -> Terms
        ensures { result ≡ record { stakes = committee.now; writers = writers } }
    {
        Terms {
            committee: committee.copy(),
            writers,
        }
    }

    /// Starts a member of such a committee from its records; refusals are those of [`Validator::start`].
    pub(crate) fn start<S: Sealer>(
        &self,
        alloc: Global,
        member: u32,
        opening: &Seq<Object>,
        kept: &Seq<Seq<u8>>,
        sealer: &S,
    ) -> Result<Validator, StartRefusal>
        requires apart { AreApart opening.now }
        requires count { length kept.now < 2 ^ 64 }
        ensures { Starts (started (rules_for self.now (S.accepts sealer.now)) opening.now kept.now) member self.now result }
    {
        Validator::start(
            alloc,
            member,
            &self.committee,
            opening,
            self.writers,
            kept,
            sealer,
        )
    }

    /// The same terms once more. Takes no memory.
    pub fn copy(&self) -> Terms
        ensures { result ≡ self.now }
    {
        Terms {
            committee: self.committee.copy(),
            writers: self.writers,
        }
    }
}
