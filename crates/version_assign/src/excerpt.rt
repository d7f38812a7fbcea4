//! What an admission keeps of a certificate.

ghost use Rattle.std.specs.Prelude.{◌≡◌, IfOk, filter_map, fold};
ghost use Rattle.protocol_spec.specs.Chain.Keys.{mutable_id};
ghost use Rattle.protocol_spec.specs.Member.Admission.{mutable_ids};
ghost use Rattle.version_assign.specs.Lines.{greater_named, named_version};

use chain_types::{Input, ObjectId};
use digest_core::Digest;
use protocol_spec::SharedCertificate;
use std::alloc::Global;
use std::marker::Model;
use wire_bcs::OutOfMemory;

/// The object that the input writes, if it writes one.
fn mutable_id(input: &Input) -> Option<ObjectId>
    ensures { result ≡ mutable_id input.now }
{
    match input {
        Input::Shared {
            id,
            mutable: true,
            ..
        } => Some(*id),
        Input::Shared { .. } | Input::Owned(_) | Input::Immutable(_) | Input::Pure(_) => None,
    }
}

/// The objects that the inputs write, in input order.
fn written_ids(alloc: Global, inputs: &[Input]) -> Result<Vec<ObjectId>, OutOfMemory>
    ensures { IfOk result (λ ids. ids.items ≡ filter_map mutable_id inputs.now) }
{
    Ok(
        inputs
            .iter()
            .filter_map(|input| mutable_id(input))
            .collect(alloc)?,
    )
}

/// The version that an owned or immutable input names.
fn named_version(input: &Input) -> u64
    ensures { result ≡ named_version input.now }
{
    match input {
        Input::Owned(reference) => reference.version,
        Input::Immutable(reference) => reference.version,
        Input::Pure(_) => 0,
        Input::Shared { .. } => 0,
    }
}

/// The greatest of this version and those that the inputs name.
fn greatest_named(greatest: u64, inputs: &[Input]) -> u64
    ensures { result ≡ fold greater_named greatest inputs.now }
{
    let mut greatest = greatest;
    let mut rest = inputs;
    while let [input, after @ ..] = rest {
        greatest = greatest.max(named_version(input));
        rest = after;
    }
    greatest
}

/// What an admission keeps of a certificate: its origins, the shared objects that it writes, and the greatest version
/// that it names. Contracts see the whole certificate.
#[derive(Drop)]
pub(crate) struct Excerpt {
    cert: SharedCertificate,
    /// The shared objects that it writes, in input order.
    writes: Vec<ObjectId>,
    /// The greatest version that its gas coin and its inputs name.
    named: u64,
}

impl Model for Excerpt {
    ghost use Rattle.chain_messages.specs.declared.messages.Certificate.{Certificate as C};
    ghost use Rattle.version_assign.specs.Excerpts.{IsExcerpt};

    ghost Value = { C };

    ghost view = { λ e. e.cert };

    ghost invariant = { λ e. IsExcerpt e.cert e.writes.items e.named };
}

impl Excerpt {
    /// The excerpt of this certificate.
    fn of(alloc: Global, cert: &SharedCertificate) -> Result<Excerpt, OutOfMemory>
        ensures { IfOk result (λ e. e ≡ cert.now) }
    {
        let tx = &cert.get().tx;
        let inputs = tx.inputs.as_slice();
        let writes = written_ids(alloc, inputs)?;
        Ok(Excerpt {
            cert: cert.share()?,
            writes,
            named: greatest_named(tx.gas.version, inputs),
        })
    }

    /// Its origins. Takes no memory.
    pub(crate) fn origins(&self) -> &[Option<Digest>]
        ensures { result.now ≡ self.now.origins }
    {
        self.cert.get().origins.as_slice()
    }

    /// The shared objects that it writes, in input order. Takes no memory.
    pub(crate) fn writes(&self) -> &[ObjectId]
        ensures { result.now ≡ mutable_ids self.now }
    {
        self.writes.as_slice()
    }

    /// The greatest version that its gas coin and its inputs name. Takes no memory.
    fn named(&self) -> u64
        ensures { result ≡ fold greater_named self.now.tx.gas.version self.now.tx.inputs }
    {
        self.named
    }
}

/// The excerpt of a certificate that waits, with its transaction's digest. Contracts see the certificate and the
/// digest.
#[derive(Drop)]
pub(crate) struct Candidate {
    digest: Digest,
    cert: Excerpt,
}

impl Model for Candidate {
    ghost use Rattle.protocol_spec.specs.declared.answers.Held.{Held as H};

    ghost Value = { H };

    ghost view = { λ c. record { digest = c.digest; cert = c.cert } };
}

impl Candidate {
    /// The candidate of this certificate, whose transaction has this digest.
    pub(crate) fn of(
        alloc: Global,
        tx: &Digest,
        cert: &SharedCertificate,
    ) -> Result<Candidate, OutOfMemory>
        ensures { IfOk result (λ c. c ≡ record { digest = tx.now; cert = cert.now }) }
    {
        let cert = Excerpt::of(alloc, cert)?;
        Ok(Candidate { digest: *tx, cert })
    }

    /// Its transaction's digest. Takes no memory.
    pub(crate) fn digest(&self) -> &Digest
        ensures { result.now ≡ self.now.digest }
    {
        &self.digest
    }

    /// Its origins. Takes no memory.
    pub(crate) fn origins(&self) -> &[Option<Digest>]
        ensures { result.now ≡ self.now.cert.origins }
    {
        self.cert.origins()
    }

    /// The shared objects that it writes, in input order. Takes no memory.
    pub(crate) fn writes(&self) -> &[ObjectId]
        ensures { result.now ≡ mutable_ids self.now.cert }
    {
        self.cert.writes()
    }

    /// The greatest version that its gas coin and its inputs name. Takes no memory.
    pub(crate) fn named(&self) -> u64
        ensures { result ≡ fold greater_named self.now.cert.tx.gas.version self.now.cert.tx.inputs }
    {
        self.cert.named()
    }

    /// The certificate without the digest. Takes no memory.
    pub(crate) fn into_cert(self) -> Excerpt
        ensures { result ≡ self.cert }
    {
        self.cert
    }
}
