//! Effects with their digest.

ghost use Rattle.std.specs.Prelude.{◌≡◌, IfOk};
ghost use Rattle.effects_core.specs.Effects.{digest_of_effects};

use crate::effects::Effects;
use crate::effects_wire::effects_digest;
use digest_core::Digest;
use std::alloc::Global;
use std::marker::Model;
use wire_bcs::{Duplicate, OutOfMemory};

/// The effects of an executed transaction, with their digest: asking for it takes no memory and hashes nothing.
/// Contracts see the effects.
#[derive(Debug, Drop)]
pub struct HashedEffects {
    effects: Effects,
    digest: Digest,
}

impl Model for HashedEffects {
    ghost use Rattle.std.specs.Prelude.{◌≡◌};
    ghost use Rattle.effects_core.specs.Effects.{digest_of_effects};
    ghost use Rattle.effects_core.specs.declared.effects.Effects.{Effects as TheEffects};

    ghost Value = { TheEffects };

    ghost view = { λ s. s.effects };

    ghost invariant = { λ s. s.digest ≡ digest_of_effects s.effects };
}

impl HashedEffects {
    /// Takes the digest of effects. A list of 2^31 objects, which is more than a transaction can write, counts as
    /// running out of memory.
    pub fn new(alloc: Global, effects: Effects) -> Result<HashedEffects, OutOfMemory>
        ensures { IfOk result (λ s. s ≡ effects) }
    {
        if !effects.is_short() {
            return Err(OutOfMemory);
        }
        let digest = effects_digest(alloc, &effects)?;
        Ok(HashedEffects { effects, digest })
    }

    /// The effects. Takes no memory.
    pub fn effects(&self) -> &Effects
        ensures { result.now ≡ self.now }
    {
        &self.effects
    }

    /// Their digest. Takes no memory.
    pub fn digest(&self) -> Digest
        ensures { result ≡ digest_of_effects self.now }
    {
        self.digest
    }
}

impl Duplicate for HashedEffects {
    fn copy(&self) -> Result<Self, OutOfMemory> {
        Ok(HashedEffects {
            effects: self.effects.copy()?,
            digest: self.digest,
        })
    }
}
