//! The world, and how it opens.

ghost use Rattle.std.specs.Prelude.{◌≡◌, ◌≤◌, ◌∷◌, [], IfOk, IsErrOf, Ok, length};
ghost use Rattle.quorum_core.specs.Committee.{committee_of};
ghost use Rattle.world_spec.specs.Setting.{setting_of, stakes_of};
ghost use Rattle.world_spec.specs.Scene.{new_scene};
ghost use Rattle.world_core.specs.declared.world.WorldRefusal.TheVariants as refusal;
ghost use Rattle.world_lines.specs.Openings.{IsRefused};
ghost use Rattle.world_core.specs.Trusts.{trust_by};

use crate::Seats;
use crate::terms::Terms;
use chain_types::Object;
use quorum_core::Committee;
use report_text::Line;
use schedule_text::Setup;
use std::alloc::Global;
use std::marker::Model;
use wire_bcs::{OutOfMemory, Seq};
use world_lines::{
    ConsensusLog, Directory, FormedCertificates, MakesSeals, StatementLog, honest_of, stakes_of,
    writers_of,
};

/// Why a set-up opens no world.
#[derive(Clone, Copy, Debug, PartialEq, Eq)]
pub enum WorldRefusal {
    /// Its members are not a committee: there are none or more than 64, or one has no stake.
    NoCommittee,
    OutOfMemory,
}

/// Why a line was not completed. [`World::step`] says what stands of the world then.
#[derive(Clone, Copy, Debug, PartialEq, Eq)]
pub enum WorldFault {
    /// A record was not kept or not read, and the keeper's count of faults rose.
    KeepFault,
    /// The first record from which the member does not start, counted from 0.
    BadRecord { member: u32, place: u64 },
    OutOfMemory,
}

/// The world of a run. Contracts see the definition's scene.
#[derive(Drop)]
pub struct World {
    pub(crate) opening: Seq<Object>,
    pub(crate) directory: Directory,
    pub(crate) order: ConsensusLog,
    pub(crate) said: StatementLog,
    pub(crate) certs: FormedCertificates,
    pub(crate) seats: Seats,
    pub(crate) alloc: Global,
}

impl Model for World {
    ghost use Rattle.world_spec.specs.Scene.{Scene};
    ghost use Rattle.world_core.specs.Sound.{IsSound};

    ghost Value = { Scene };

    ghost view = { λ w. record { terms = w.seats.terms; opening = w.opening; known = w.directory; sequences = w.order.sequences; epoch = w.order.epoch; said = w.said; certs = w.certs; posts = w.seats.posts } };

    ghost invariant = { λ w. IsSound w.opening w.directory w.certs w.order.sequences };
}

impl World {
    /// The world of a set-up whose members are this committee.
    #[tactic(auto, unfolding(world_spec::specs::Setting::setting_of), using(crate::proofs::Sound::few_flags, crate::proofs::Sound::sound_first, world_lines::proofs::Opened::opening_apart))]
    fn open<S: MakesSeals>(
        alloc: Global,
        setup: &[Setup],
        committee: &Committee,
        sealer: &S,
    ) -> Result<World, OutOfMemory>
        requires { committee_of (stakes_of setup.now) ≡ Ok committee.now }
        ensures { IfOk result (λ w. w ≡ new_scene (setting_of (trust_by (S.made sealer.now) (S.accepts sealer.now)) setup.now) setup.now) }
    {
        let honest = honest_of(alloc, setup)?;
        let (directory, opening) = Directory::with_opening(alloc, setup)?;
        let terms = Terms::new(committee, writers_of(setup));
        let Ok(seats) = Seats::new(alloc, &terms, honest.as_slice(), &opening, sealer) else {
            drop(directory);
            return Err(OutOfMemory);
        };
        Ok(World {
            opening,
            directory,
            order: ConsensusLog::new(alloc),
            said: StatementLog::new(alloc),
            certs: FormedCertificates::new(alloc),
            seats,
            alloc,
        })
    }

    /// The world before the first line: each member of the set-up is up, and has opened epoch 0 with the set-up's
    /// objects. `NoCommittee` comes only if the members are not a committee, and the world only if they are one.
    #[tactic(auto, using(crate::proofs::Sound::committee_whole))]
    pub fn new<S: MakesSeals>(
        alloc: Global,
        setup: &[Setup],
        sealer: &S,
    ) -> Result<World, WorldRefusal>
        ensures opened { IfOk result (λ w. w ≡ new_scene (setting_of (trust_by (S.made sealer.now) (S.accepts sealer.now)) setup.now) setup.now) }
        ensures committee { IfOk result (λ _. committee_of (stakes_of setup.now) ≡ Ok (stakes_of setup.now)) }
        ensures refused { IsErrOf result refusal.NoCommittee → IsRefused (committee_of (stakes_of setup.now)) }
    {
        let Ok(stakes) = stakes_of(alloc, setup) else {
            return Err(WorldRefusal::OutOfMemory);
        };
        let committee = match Committee::new(stakes.as_slice()) {
            Ok(committee) => committee,
            Err(_refusal) => return Err(WorldRefusal::NoCommittee),
        };
        match World::open(alloc, setup, &committee, sealer) {
            Ok(world) => Ok(world),
            Err(OutOfMemory) => Err(WorldRefusal::OutOfMemory),
        }
    }

    /// Lets the ids that `tx` lines draw wait until a name is looked up by an id ([`Directory::wait`]). Takes no memory.
    #[tactic(auto, using(crate::proofs::Sound::sound_same))]
    pub fn let_ids_wait(&mut self)
        ensures { self.new ≡ self.old }
    {
        self.directory.wait();
    }

    /// The number of members, at most 64: the keeper of [`World::step`] has a list for each. Takes no memory.
    pub fn members(&self) -> u32
        ensures value { result ≡ length self.now.posts }
        ensures most { result ≤ 64 }
    {
        self.seats.len()
    }
}
