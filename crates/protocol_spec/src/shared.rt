//! A certificate with several owners.

ghost use Rattle.std.specs.Prelude.{◌≡◌, IfOk};

use chain_messages::Certificate;
use std::alloc::Global;
use std::marker::Model;
use std::sync::Arc;
use wire_bcs::OutOfMemory;

/// A certificate that several tables keep, in any threads: it stands once in memory. Contracts see the certificate.
#[derive(Debug, Drop)]
pub struct SharedCertificate {
    cert: Arc<Certificate, Global>,
}

impl Model for SharedCertificate {
    ghost use Rattle.std.specs.Arc.{arc_value};
    ghost use Rattle.chain_messages.specs.declared.messages.Certificate.{Certificate as C};

    ghost Value = { C };

    ghost view = { λ s. arc_value s.cert };
}

impl SharedCertificate {
    /// A certificate with one owner.
    pub fn new(alloc: Global, cert: Certificate) -> Result<SharedCertificate, OutOfMemory>
        ensures { IfOk result (λ s. s ≡ cert) }
    {
        let cert = Arc::new(alloc, cert)?;
        Ok(SharedCertificate { cert })
    }

    /// Gives it one more owner. Takes no memory: the only error is that it has 2^63 owners already.
    pub fn share(&self) -> Result<SharedCertificate, OutOfMemory>
        ensures { IfOk result (λ s. s ≡ self.now) }
    {
        let cert = Arc::try_clone(&self.cert)?;
        Ok(SharedCertificate { cert })
    }

    /// The certificate. Takes no memory.
    pub fn get(&self) -> &Certificate
        ensures { result.now ≡ self.now }
    {
        &self.cert
    }
}
