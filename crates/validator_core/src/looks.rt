//! Look-ups in a member's state: versions, effects, held certificates.

ghost use Rattle.std.specs.Prelude.{◌≡◌, option_copied, option_map};
ghost use Rattle.protocol_spec.specs.Member.Versions.{Execution, execution_of, live, object_in, version_at, versions as versions_of};

use crate::state::State;
use crate::validator::Validator;
use chain_types::{HashedObject, Object, ObjectId, ObjectKey};
use digest_core::Digest;
use effects_core::Effects;
use protocol_spec::Held;

impl State {
    /// The object of a held version, with its digest. Takes no memory.
    pub(crate) fn hashed(&self, key: &ObjectKey) -> Option<&HashedObject>
        ensures { option_copied result ≡ option_map object_in (version_at (versions_of self.now.member.opening self.now.member.executed) key.now) }
    {
        self.epoch_state.store.hashed(key)
    }

    /// The newest version of an object; none exactly if none is held, or it was deleted. Takes no memory.
    pub(crate) fn live(&self, id: &ObjectId) -> Option<&Object>
        ensures { option_copied result ≡ live self.now.member.opening self.now.member.executed id.now }
    {
        self.epoch_state.store.live(id)
    }

    /// The effects of a transaction that the member executed in the epoch; none exactly if it executed none. Takes no
    /// memory.
    pub(crate) fn effects(&self, tx: &Digest) -> Option<&Effects>
        ensures { option_map (λ (e : _). e.now) result ≡ option_map (λ (x : Execution). x.gave.effects) (execution_of self.now.member.executed tx.now) }
    {
        self.epoch_state.store.executed(tx)
    }

    /// The certificates that the member holds, in the order in which they came. Takes no memory.
    pub(crate) fn held(&self) -> &[Held]
        ensures { result.now ≡ self.now.member.held }
    {
        self.epoch_state.held.as_slice()
    }
}

impl Validator {
    /// The number of the member's records. Takes no memory.
    pub fn records(&self) -> u64
        ensures { result ≡ self.now.state.records }
    {
        self.state.records()
    }

    /// The object of a held version; none exactly if the version is not held. Takes no memory.
    pub fn object(&self, key: &ObjectKey) -> Option<&Object>
        ensures { option_copied result ≡ option_map object_in (version_at (versions_of self.now.state.opening self.now.state.executed) key.now) }
    {
        self.state.object(key)
    }

    /// The live version of an object; none exactly if there is none. Takes no memory.
    pub fn live(&self, id: &ObjectId) -> Option<&Object>
        ensures { option_copied result ≡ live self.now.state.opening self.now.state.executed id.now }
    {
        self.state.live(id)
    }

    /// The effects of a transaction that the member executed in its present epoch; none exactly if it executed none.
    /// Takes no memory.
    pub fn effects(&self, tx: &Digest) -> Option<&Effects>
        ensures { option_map (λ (e : _). e.now) result ≡ option_map (λ (x : Execution). x.gave.effects) (execution_of self.now.state.executed tx.now) }
    {
        self.state.effects(tx)
    }

    /// The certificates that the member holds, in the order in which they came. Takes no memory.
    pub fn held(&self) -> &[Held]
        ensures { result.now ≡ self.now.state.held }
    {
        self.state.held()
    }
}
