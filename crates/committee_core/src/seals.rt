//! The seals of the program, and the laws of runs under them.

ghost use Rattle.std.specs.Prelude.{◌≡◌, bytes_eq};
ghost use Rattle.quorum_core.specs.Seals.{keyed_seal};
ghost use Rattle.world_core.specs.Trusts.{trust_by};
ghost use Rattle.committee_core.specs.Headline.{program_trust};
ghost use Rattle.committee_core.specs.Laws.{SceneLaws};

use quorum_core::KeyedSeal;
use run_law::{records_of_a_world, restarts_of_a_run, steps_of_a_world};

/// The seals of the program: those under a secret of 32 bytes of hexadecimal 5a.
pub fn program_sealer() -> KeyedSeal
    ensures { trust_by (λ signer bytes. keyed_seal result.secret signer bytes) (λ signer bytes seal. bytes_eq seal.0 (keyed_seal result.secret signer bytes).0) ≡ program_trust }
{
    KeyedSeal::new([0x5a; 32])
}

/// The laws by which the code's view of a world follows the definition's, for these seals.
pub(crate) fn laws_of_scenes()
    ensures { SceneLaws program_trust }
{
    steps_of_a_world();
    records_of_a_world();
    restarts_of_a_run();
}
