//! What an entry of the sequence does to a member's epoch.

ghost use Rattle.std.specs.Prelude.{◌≡◌, ◌+◌, ◌<◌, ◌≤◌, ◌^◌, IfOk, OnErr, OnOk, drop, false, length, map};
ghost use Rattle.protocol_spec.specs.Chain.Certificates.{Rules};
ghost use Rattle.protocol_spec.specs.Member.Admission.{deferred_on, digest_of_admitted, pending_on};
ghost use Rattle.protocol_spec.specs.Member.Sequence.{newly_admitted, newly_dropped, commits, counts, seen_what, takes};
ghost use Rattle.world_spec.specs.Terms.{rules_for};
ghost use Rattle.validator_core.specs.Courses.{IsAdmitting, IsSound, IsUnbuilt, Stays, arrives, brings, coursed, ends, marks, newly_built, numbered_in, sequence_in};
ghost use Rattle.validator_core.specs.Entries.{IsArriving, IsEnding, MayArrive, waiting_answer, what_as};

use crate::entries::EntryOutcome;
use crate::epoch_state::EpochState;
use digest_core::Digest;
use epoch_turn::Counted;
use protocol_spec::{Held, Seen, SeenWhat};
use quorum_core::Committee;
use version_assign::Taken;
use wire_bcs::OutOfMemory;

impl EpochState {
    /// A certificate comes by the sequence: it is held, if none of its transaction was.
    fn bring(&mut self, new: Held) -> Result<Taken, OutOfMemory>
        requires sound { IsSound self.old }
        requires arriving { IsArriving (sequence_in self.old) new }
        requires unended { self.old.ended ≡ false }
        ensures admitting { OnOk result (IsAdmitting (length self.old.admission.admission.admitted) self.new) }
        ensures value { OnOk result (coursed self.new ≡ brings (coursed self.old) new) }
        ensures admitted { IfOk result (λ t. t.admitted ≡ newly_admitted (sequence_in self.old) (sequence_in self.new)) }
        ensures dropped { IfOk result (λ t. t.dropped ≡ newly_dropped (sequence_in self.old) (sequence_in self.new)) }
        ensures built { self.new.chain.built ≡ self.old.chain.built }
        ensures stays { Stays self.old self.new }
        ensures seen { self.new.seen ≡ self.old.seen }
    {
        if self.held.has(&new.digest) {
            return self.admission.push(&new.digest, &new.cert);
        }
        self.waiting
            .hold(&self.store, &self.admission, self.held.as_slice(), &new)?;
        let taken = self.admission.push(&new.digest, &new.cert)?;
        self.held.hold(new)?;
        Ok(taken)
    }

    /// What is answered of a transaction that came by the sequence.
    fn what_taken(&self, tx: &Digest, taken: Taken) -> SeenWhat
        ensures { result ≡ (waiting_answer (pending_on self.now.admission.admission tx.now) (deferred_on self.now.admission.writers self.now.admission.admission tx.now) tx.now taken) }
    {
        if let Some(origin) = self.admission.pending_on(tx) {
            return SeenWhat::Pending { tx: *tx, origin };
        }
        match self.admission.deferred_on(tx) {
            Some(id) => SeenWhat::Deferred { tx: *tx, id },
            None => SeenWhat::Taken {
                admitted: taken.admitted,
                dropped: taken.dropped,
            },
        }
    }

    /// The entry of a certificate.
    fn enter(&mut self, new: Held) -> Result<SeenWhat, OutOfMemory>
        requires sound { IsSound self.old }
        requires arriving { IsArriving (sequence_in self.old) new }
        requires unended { self.old.ended ≡ false }
        ensures unbuilt { OnOk result (IsUnbuilt self.new) }
        ensures value { OnOk result (coursed self.new ≡ brings (coursed self.old) new) }
        ensures what { IfOk result (λ what. (r : Rules) → r.writers ≡ self.old.admission.writers → what ≡ seen_what r (sequence_in self.old) (sequence_in self.new) (takes new)) }
        ensures built { self.new.chain.built ≡ self.old.chain.built }
        ensures stays { Stays self.old self.new }
        ensures seen { self.new.seen ≡ self.old.seen }
    {
        let from = self.admission.admitted_count();
        let tx = new.digest;
        let taken = self.bring(new)?;
        self.let_in(from, taken.admitted.as_slice())?;
        Ok(self.what_taken(&tx, taken))
    }

    /// A mark: what was admitted since the last one is cut, and what waited for the mark is taken after it.
    fn pass_mark(&mut self) -> Result<SeenWhat, OutOfMemory>
        requires sound { IsSound self.old }
        requires unended { self.old.ended ≡ false }
        ensures unbuilt { OnOk result (IsUnbuilt self.new) }
        ensures value { OnOk result (coursed self.new ≡ marks (coursed self.old)) }
        ensures what { IfOk result (λ what. (r : Rules) → what ≡ seen_what r (sequence_in self.old) (sequence_in self.new) commits) }
        ensures built { self.new.chain.built ≡ self.old.chain.built }
        ensures stays { Stays self.old self.new }
        ensures seen { self.new.seen ≡ self.old.seen }
    {
        let from = self.admission.admitted_count();
        self.chain.mark()?;
        let taken = self.admission.mark()?;
        self.let_in(from, taken.admitted.as_slice())?;
        Ok(SeenWhat::Commit {
            admitted: taken.admitted,
            dropped: taken.dropped,
        })
    }

    /// An End of a member of which none was counted: with a quorum the epoch ends, and what was admitted since the last
    /// mark is its last cut.
    fn count_end(&mut self, committee: &Committee, member: u32) -> Result<SeenWhat, OutOfMemory>
        requires sound { IsSound self.old }
        requires ending { IsEnding committee.now (sequence_in self.old) member }
        requires unended { self.old.ended ≡ false }
        ensures unbuilt { OnOk result (IsUnbuilt self.new) }
        ensures value { OnOk result (coursed self.new ≡ ends committee.now (coursed self.old) member) }
        ensures what { IfOk result (λ what. (r : Rules) → r.stakes ≡ committee.now → what ≡ seen_what r (sequence_in self.old) (sequence_in self.new) (counts member)) }
        ensures built { self.new.chain.built ≡ self.old.chain.built }
        ensures stays { Stays self.old self.new }
        ensures seen { self.new.seen ≡ self.old.seen }
    {
        match self.ends.count(committee, member) {
            Counted::Repeat => unreachable!(),
            Counted::Weight(weight) => Ok(SeenWhat::Counted { member, weight }),
            Counted::Ended(weight) => {
                self.chain.end()?;
                self.ended = true;
                Ok(SeenWhat::Ended { member, weight })
            }
        }
    }

    /// What the entry does, but for its number and for the checkpoints that it completes.
    #[tactic(auto, unfolding(protocol_spec::specs::Member::Sequence::seen_what))]
    fn take(
        &mut self,
        committee: &Committee,
        arrival: EntryOutcome,
    ) -> Result<SeenWhat, OutOfMemory>
        requires sound { IsSound self.old }
        requires may { MayArrive committee.now (sequence_in self.old) arrival }
        requires unended { self.old.ended ≡ false }
        ensures unbuilt { OnOk result (IsUnbuilt self.new) }
        ensures value { OnOk result (coursed self.new ≡ arrives committee.now (coursed self.old) arrival) }
        ensures what { IfOk result (λ what. (r : Rules) → r.stakes ≡ committee.now → r.writers ≡ self.old.admission.writers → what ≡ seen_what r (sequence_in self.old) (sequence_in self.new) (what_as arrival)) }
        ensures built { self.new.chain.built ≡ self.old.chain.built }
        ensures stays { Stays self.old self.new }
        ensures seen { self.new.seen ≡ self.old.seen }
    {
        match arrival {
            EntryOutcome::Takes(new) => self.enter(new),
            EntryOutcome::Commits => self.pass_mark(),
            EntryOutcome::Counts(member) => self.count_end(committee, member),
            EntryOutcome::Ignores(cause) => Ok(SeenWhat::Ignored(cause)),
        }
    }

    /// Takes the next entry of the sequence (Sui Lutris), and answers what it did, and which checkpoints it completed.
    pub(crate) fn see(
        &mut self,
        committee: &Committee,
        arrival: EntryOutcome,
    ) -> Result<Seen, OutOfMemory>
        requires sound { IsSound self.old }
        requires may { MayArrive committee.now (sequence_in self.old) arrival }
        requires unended { self.old.ended ≡ false }
        requires room { self.old.seen < 2 ^ 32 }
        ensures sound { OnOk result (IsSound self.new) }
        ensures value { OnOk result (coursed self.new ≡ numbered_in (arrives committee.now (coursed self.old) arrival)) }
        ensures what { IfOk result (λ seen. (r : Rules) → r.stakes ≡ committee.now → r.writers ≡ self.old.admission.writers → seen.what ≡ seen_what r (sequence_in self.old) (sequence_in self.new) (what_as arrival)) }
        ensures built { IfOk result (λ seen. seen.built ≡ newly_built (coursed self.old) (coursed self.new)) }
        ensures stays { Stays self.old self.new }
        ensures seen { OnOk result (self.new.seen ≡ self.old.seen + 1) }
        ensures still { OnErr result (self.new.seen ≡ self.old.seen) }
    {
        let what = self.take(committee, arrival)?;
        let built = self.advance()?;
        self.seen += 1;
        Ok(Seen { what, built })
    }
}
