//! How a member is opened.

ghost use Rattle.std.specs.Prelude.{◌≡◌, ◌++◌, ◌∷◌, ◌<◌, ◌^◌, [], Err, IfErr, IfOk, OnOk, Option, false, length};
ghost use Rattle.chain_types.specs.Equal.{id_eq};
ghost use Rattle.protocol_spec.specs.Chain.Words.{repeats};
ghost use Rattle.sui_validator.specs.Journals.{AreAll, Records, Stays};
ghost use Rattle.sui_validator.specs.Members.{IsOpened, Opens, ids_of};
ghost use Rattle.sui_validator.specs.declared.opening.OpenRefusal.TheVariants as refusal;

use crate::journal::Journal;
use crate::member::Member;
use crate::records::records_of;
use crate::sole::Sole;
use chain_types::Object;
use outside::OutFault;
use protocol_spec::StartRefusal;
use quorum_core::{Committee, Sealer};
use std::alloc::Global;
use tx_check::repeats_object;
use validator_core::Validator;
use wire_bcs::{OutOfMemory, Seq};

/// Why a member is not opened, in the order in which the cases are tried.
#[derive(Clone, Copy, PartialEq, Eq)]
pub enum OpenRefusal {
    /// The committee has this many members, and no member of this number.
    NoMember { number: u32, members: u32 },
    /// An object comes twice among those that the first epoch opens with.
    ObjectTwice,
    /// A record could not be read, and the journal's count of faults rose.
    ReadFault,
    /// The place of the first record that does not decode (`why` 1), or that no call would have appended (`why` 2).
    BadRecord { place: u64, why: u8 },
    OutOfMemory,
}

impl From<OutOfMemory> for OpenRefusal {
    ghost from_gives = { λ _ given. given ≡ refusal.OutOfMemory };

    fn from(_error: OutOfMemory) -> Self {
        OpenRefusal::OutOfMemory
    }
}

/// Starts a validator from records that were read.
fn start_from<S: Sealer>(
    alloc: Global,
    number: u32,
    committee: &Committee,
    opening: &Seq<Object>,
    writers: Option<u32>,
    kept: &Seq<Seq<u8>>,
    sealer: &S,
) -> Result<Validator, OpenRefusal>
    requires apart { repeats id_eq (ids_of opening.now) ≡ false }
    requires count { length kept.now < 2 ^ 64 }
    ensures { (before now : Option Records) → AreAll before kept.now → Stays before now → Opens (record { stakes = committee.now; writers = writers }) (S.accepts sealer.now) opening.now number before now result }
{
    match Validator::start(alloc, number, committee, opening, writers, kept, sealer) {
        Ok(validator) => Ok(validator),
        Err(StartRefusal::BadRecord { place, why }) => Err(OpenRefusal::BadRecord { place, why }),
        Err(StartRefusal::OutOfMemory) => Err(OpenRefusal::OutOfMemory),
    }
}

/// Starts a validator from the records of its journal.
fn start<J: Journal, S: Sealer>(
    alloc: Global,
    number: u32,
    committee: &Committee,
    opening: &Seq<Object>,
    writers: Option<u32>,
    journal: &mut J,
    sealer: &S,
) -> Result<Validator, OpenRefusal>
    ensures opens { Opens (record { stakes = committee.now; writers = writers }) (S.accepts sealer.now) opening.now number (J.records journal.old) (J.records journal.new) result }
    ensures below { IfOk result (λ _. number < 64) }
{
    if number >= committee.len() {
        return Err(OpenRefusal::NoMember {
            number,
            members: committee.len(),
        });
    }
    if repeats_object(alloc, opening.as_slice())? {
        return Err(OpenRefusal::ObjectTwice);
    }
    match records_of(alloc, journal) {
        Ok(kept) => {
            let started = start_from(alloc, number, committee, opening, writers, &kept, sealer);
            drop(kept);
            started
        }
        Err(OutFault::Failed) => Err(OpenRefusal::ReadFault),
        Err(OutFault::OutOfMemory) => Err(OpenRefusal::OutOfMemory),
    }
}

impl<J: Journal, S: Sealer> Member<J, S> {
    /// Opens the member of this number from what its journal holds, which is nothing for a new member. Epoch 0 opens
    /// with these objects; `writers` limits how many transactions may write one shared object between two marks, if it
    /// is given. The journal stays as it is.
    pub fn open(
        alloc: Global,
        number: u32,
        committee: &Committee,
        opening: &Seq<Object>,
        writers: Option<u32>,
        journal: J,
        sealer: S,
    ) -> Result<Member<J, S>, OpenRefusal>
    where
        J: Drop,
        S: Drop,
        ensures opened { IfOk result (λ m. IsOpened (record { stakes = committee.now; writers = writers }) (S.accepts sealer) opening.now number (J.records journal) (J.records m.journal) m.seat) }
        ensures sealer { IfOk result (λ m. m.sealer ≡ sealer) }
        ensures refused { IfErr result (λ why. (now : Option Records) → Opens (record { stakes = committee.now; writers = writers }) (S.accepts sealer) opening.now number (J.records journal) now (Err why)) }
    {
        let mut journal = journal;
        match start(
            alloc,
            number,
            committee,
            opening,
            writers,
            &mut journal,
            &sealer,
        ) {
            Ok(validator) => Ok(Member {
                validator,
                keeper: Sole {
                    journal,
                    member: number as u8,
                },
                sealer,
            }),
            Err(refusal) => {
                drop(journal);
                drop(sealer);
                Err(refusal)
            }
        }
    }
}
