//! Collecting the last votes of members for a transaction, or their last acknowledgements of one.

ghost use Rattle.std.specs.Prelude.{◌≡◌};
ghost use Rattle.chain_types.specs.Equal.{digest_eq};
ghost use Rattle.protocol_spec.specs.Chain.Collecting.{collected};
ghost use Rattle.protocol_spec.specs.Chain.Tests.{origins_eq};
ghost use Rattle.cert_rules.specs.Collecting.{collected_as};
ghost use Rattle.world_spec.specs.Step.{ack_in, last_said, vote_in};

use crate::said::StatementLog;
use cert_rules::{Collected, LastWords, collect_words, same_origins};
use digest_core::Digest;
use quorum_core::Committee;
use wire_bcs::Seq;

/// The book's last votes for this transaction of this epoch, as a source for collecting.
#[derive(Clone, Copy)]
struct Votes<'a> {
    book: &'a StatementLog,
    epoch: u64,
    tx: &'a Digest,
}

impl LastWords for Votes<'_> {
    type Word = Seq<Option<Digest>>;

    ghost same = { origins_eq };

    ghost reads = { λ v m. last_said (vote_in v.epoch v.tx.now) m v.book.now };

    fn last_word(&self, member: u32) -> Option<&Seq<Option<Digest>>> {
        self.book.last_vote(member, self.epoch, self.tx)
    }

    fn are_same(a: &Seq<Option<Digest>>, b: &Seq<Option<Digest>>) -> bool
        ensures { result ≡ origins_eq a.now b.now }
    {
        same_origins(a.as_slice(), b.as_slice())
    }
}

/// The book's last acknowledgements of this transaction in this epoch, as a source for collecting.
#[derive(Clone, Copy)]
struct Acks<'a> {
    book: &'a StatementLog,
    epoch: u64,
    tx: &'a Digest,
}

impl LastWords for Acks<'_> {
    type Word = Digest;

    ghost same = { digest_eq };

    ghost reads = { λ a m. last_said (ack_in a.epoch a.tx.now) m a.book.now };

    fn last_word(&self, member: u32) -> Option<&Digest> {
        self.book.last_ack(member, self.epoch, self.tx)
    }

    fn are_same(a: &Digest, b: &Digest) -> bool
        ensures { result ≡ digest_eq a.now b.now }
    {
        a == b
    }
}

impl StatementLog {
    /// What the last votes of these members for a transaction of an epoch give: the first member without one, too little stake,
    /// the first two that differ, or that all agree. The members may come in any order, and more than once: their
    /// stake is that of their set. Takes no memory.
    pub fn collect(
        &self,
        committee: &Committee,
        epoch: u64,
        tx: &Digest,
        members: &[u32],
    ) -> Collected
        ensures { collected_as result ≡ collected origins_eq committee.now (λ m. last_said (vote_in epoch tx.now) m self.now) members.now }
    {
        let votes = Votes {
            book: self,
            epoch,
            tx,
        };
        collect_words(&votes, committee, members)
    }

    /// What the last acknowledgements of a transaction in an epoch by these members give, as `collect` for votes; two
    /// differ if their digests of the effects do. Takes no memory.
    pub fn collect_acks(
        &self,
        committee: &Committee,
        epoch: u64,
        tx: &Digest,
        members: &[u32],
    ) -> Collected
        ensures { collected_as result ≡ collected digest_eq committee.now (λ m. last_said (ack_in epoch tx.now) m self.now) members.now }
    {
        let acks = Acks {
            book: self,
            epoch,
            tx,
        };
        collect_words(&acks, committee, members)
    }
}
