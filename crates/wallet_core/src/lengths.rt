//! Values with a list that is too long for its bytes.

ghost use Rattle.std.specs.Prelude.{◌≡◌, Bool, false};
ghost use Rattle.wallet_core.specs.Lengths as lengths;

use chain_messages::{Certificate, Entry, Sealed, Statement};
use chain_types::{SignedTx, Transaction, has_long_list};
use checkpoint_core::Checkpoint;
use effects_core::Effects;
use wire_bcs::{Seq, Wire};

/// The greatest length of a list that can be encoded.
const MOST: u64 = 2_147_483_647;

/// A value whose lists can be counted before it is encoded.
pub trait Measured: Wire {
    /// Whether one of its lists is too long.
    ghost too_long: { Self → Bool };

    /// Whether one of its lists has more than 2,147,483,647 items. Takes no memory.
    fn is_too_long(&self) -> bool
        ensures value { result ≡ too_long self.now }
        ensures short { result ≡ false → Self.codec.short self.now };
}

/// Whether a list is too long.
fn is_long<T>(items: &Seq<T>) -> bool
    ensures { result ≡ lengths.is_long items.now }
{
    items.len() > MOST
}

#[tactic(auto, using(crate::proofs::Short::tx_short))]
impl Measured for Transaction {
    ghost too_long = { lengths.tx_long };

    fn is_too_long(&self) -> bool {
        has_long_list(MOST, self)
    }
}

#[tactic(auto, using(crate::proofs::Short::signed_short))]
impl Measured for SignedTx {
    ghost too_long = { lengths.signed_long };

    fn is_too_long(&self) -> bool {
        has_long_list(MOST, &self.tx)
    }
}

#[tactic(auto, using(crate::proofs::Short::statement_short))]
impl Measured for Statement {
    ghost too_long = { lengths.statement_long };

    fn is_too_long(&self) -> bool {
        match self {
            Statement::Vote { origins, .. } => is_long(origins),
            Statement::End { .. } | Statement::Checkpoint { .. } | Statement::Ack { .. } => false,
        }
    }
}

#[tactic(auto, using(crate::proofs::Short::sealed_short))]
impl Measured for Sealed {
    ghost too_long = { lengths.sealed_long };

    fn is_too_long(&self) -> bool {
        self.statement.is_too_long()
    }
}

#[tactic(auto, using(crate::proofs::Short::certificate_short))]
impl Measured for Certificate {
    ghost too_long = { lengths.certificate_long };

    fn is_too_long(&self) -> bool {
        has_long_list(MOST, &self.tx) || is_long(&self.origins) || is_long(&self.seals)
    }
}

#[tactic(auto, using(crate::proofs::Short::entry_short))]
impl Measured for Entry {
    ghost too_long = { lengths.entry_long };

    fn is_too_long(&self) -> bool {
        match self {
            Entry::Cert(cert) => cert.is_too_long(),
            Entry::End(sealed) => sealed.is_too_long(),
            Entry::Commit => false,
        }
    }
}

#[tactic(auto, using(crate::proofs::Short::effects_short))]
impl Measured for Effects {
    ghost too_long = { lengths.effects_long };

    fn is_too_long(&self) -> bool {
        is_long(&self.written) || is_long(&self.deleted)
    }
}

#[tactic(auto, using(crate::proofs::Short::checkpoint_short))]
impl Measured for Checkpoint {
    ghost too_long = { lengths.checkpoint_long };

    fn is_too_long(&self) -> bool {
        is_long(&self.items)
    }
}
