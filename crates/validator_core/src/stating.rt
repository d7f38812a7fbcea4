//! What a member states beside its votes: that it executed a transaction, and that it ended its epoch.

ghost use Rattle.std.specs.Prelude.{◌≡◌, IfOk, IsErrOf};
ghost use Rattle.protocol_spec.specs.declared.refusals.AckRefusal.TheVariants as no_ack;
ghost use Rattle.protocol_spec.specs.declared.refusals.EndRefusal.TheVariants as no_end;
ghost use Rattle.chain_messages.specs.Messages.{statement as statement_codec};
ghost use Rattle.protocol_spec.specs.Chain.Words.{first_some, unless_refused};
ghost use Rattle.protocol_spec.specs.Member.Calls.{ack_answer, end_answer, end_cases};
ghost use Rattle.validator_core.specs.Answers.{bare};
ghost use Rattle.validator_core.specs.Calls.{Acks, Ends, IsSealedBy};
ghost use Rattle.world_spec.specs.Step.{executed_digest};

use crate::state::State;
use chain_messages::{Sealed, Statement, encode_statement};
use digest_core::Digest;
use protocol_spec::{AckRefusal, EndRefusal};
use quorum_core::{Sealer, Signer};
use std::alloc::Global;
use wire_bcs::OutOfMemory;

/// The statement of this member under its seal.
pub(crate) fn seal_statement<S: Sealer>(
    alloc: Global,
    sealer: &S,
    member: u32,
    statement: Statement,
) -> Result<Sealed, OutOfMemory>
    requires { statement_codec.short statement }
    ensures said { IfOk result (λ s. s.statement ≡ statement) }
    ensures sealed { IfOk result (λ s. IsSealedBy (S.accepts sealer.now) member s) }
{
    let bytes = encode_statement(alloc, &statement)?;
    let seal = sealer.seal(&Signer::Member(member), bytes.as_slice());
    Ok(Sealed {
        member,
        statement,
        seal,
    })
}

impl State {
    /// The digest of the effects of a transaction that the member executed in the epoch; none exactly if it executed
    /// none. One look-up by the transaction. Takes no memory.
    pub(crate) fn executed_digest(&self, tx: &Digest) -> Option<Digest>
        ensures { result ≡ executed_digest tx.now self.now.member }
    {
        self.epoch_state.store.executed_digest(tx)
    }

    /// The acknowledgement of a transaction. Order of the refusals: `Halted`, `NotExecuted`. Takes no memory.
    #[tactic(auto, unfolding(protocol_spec::specs::Member::Calls::ack_answer), using(crate::proofs::Said::ack_short, crate::proofs::Said::acknowledges, crate::proofs::Said::lacks))]
    fn acknowledgement(&self, tx: &Digest) -> Result<Statement, AckRefusal>
        ensures answer { result ≡ ack_answer bare self.now.member tx.now }
        ensures short { IfOk result statement_codec.short }
        ensures never { IsErrOf result no_ack.OutOfMemory → ⊥ }
    {
        if let Some((first, second)) = self.fork() {
            return Err(AckRefusal::Halted { first, second });
        }
        match self.executed_digest(tx) {
            Some(effects) => Ok(Statement::Ack {
                epoch: self.epoch(),
                tx: *tx,
                effects,
            }),
            None => Err(AckRefusal::NotExecuted),
        }
    }
}

impl State {
    /// Whether the member ended its epoch. Order of the refusals: `Halted`, `NotClosed`, `Waits`. Takes no memory.
    #[tactic(auto, using(crate::proofs::Said::none_waits, crate::proofs::Said::one_waits))]
    fn check_end(&self) -> Result<(), EndRefusal>
        ensures value { result ≡ unless_refused (first_some (end_cases self.now.member)) tt }
        ensures never { IsErrOf result no_end.OutOfMemory → ⊥ }
    {
        if let Some((first, second)) = self.fork() {
            return Err(EndRefusal::Halted { first, second });
        }
        if !self.is_closed() {
            return Err(EndRefusal::NotClosed);
        }
        match self.first_unordered() {
            Some(tx) => Err(EndRefusal::Waits { tx }),
            None => Ok(()),
        }
    }
}

/// Asks a member that is up to say End.
#[tactic(auto, using(crate::proofs::Said::end_short, crate::proofs::Said::end_goes, crate::proofs::Said::end_wants))]
pub(crate) fn end<S: Sealer>(state: &State, sealer: &S, member: u32) -> Result<Sealed, EndRefusal>
    ensures { Ends (S.accepts sealer.now) member (end_answer bare state.now.member) result }
{
    match state.check_end() {
        Ok(()) => {}
        Err(refusal) => return Err(refusal),
    }
    let statement = Statement::End {
        epoch: state.epoch(),
    };
    match seal_statement(state.allocator(), sealer, member, statement) {
        Ok(sealed) => Ok(sealed),
        Err(OutOfMemory) => Err(EndRefusal::OutOfMemory),
    }
}

/// Asks a member that is up to acknowledge what it executed.
#[tactic(auto, using(crate::proofs::Said::ack_goes, crate::proofs::Said::ack_refused))]
pub(crate) fn ack<S: Sealer>(
    state: &State,
    sealer: &S,
    member: u32,
    tx: &Digest,
) -> Result<Sealed, AckRefusal>
    ensures { Acks (S.accepts sealer.now) member (ack_answer bare state.now.member tx.now) result }
{
    let statement = match state.acknowledgement(tx) {
        Ok(statement) => statement,
        Err(refusal) => return Err(refusal),
    };
    match seal_statement(state.allocator(), sealer, member, statement) {
        Ok(sealed) => Ok(sealed),
        Err(OutOfMemory) => Err(AckRefusal::OutOfMemory),
    }
}
