//! The certificates that lines form.

ghost use Rattle.std.specs.Prelude.{◌≡◌, IfOk};
ghost use Rattle.wire_bcs.specs.Wrote.{Writes};
ghost use Rattle.chain_messages.specs.Messages as codecs;
ghost use Rattle.chain_messages.specs.declared.messages.Entry.TheVariants as entries;
ghost use Rattle.world_lines.specs.Forming.{with_seals};

use crate::shared_bytes::SharedBytes;
use crate::shared_tx::SharedTx;
use chain_messages::{Certificate, MemberSeal};
use digest_core::Digest;
use std::alloc::Global;
use std::marker::Model;
use wire_bcs::{Duplicate, OutOfMemory, Seq, Wire, Writer};

/// A certificate, and the encoding of the entry that orders it, which ends with that of the certificate. It owns its
/// transaction together with the line that made it. Contracts see the certificate.
#[derive(Debug, Drop)]
pub struct FormedCertificate {
    signed: SharedTx,
    origins: Seq<Option<Digest>>,
    seals: Seq<MemberSeal>,
    entry: SharedBytes,
}

impl Model for FormedCertificate {
    ghost use Rattle.std.specs.Prelude.{◌≡◌};
    ghost use Rattle.chain_messages.specs.Messages as codecs;
    ghost use Rattle.chain_messages.specs.declared.messages.Certificate.{Certificate as C};
    ghost use Rattle.chain_messages.specs.declared.messages.Entry.TheVariants as entries;
    ghost use Rattle.world_lines.specs.Forming.{with_seals};

    ghost Value = { C };

    ghost view = { λ c. with_seals c.signed.tx c.origins c.seals };

    ghost invariant = { λ c. c.entry ≡ codecs.entry.spell (entries.Cert (with_seals c.signed.tx c.origins c.seals)) };
}

/// Writes the entry that orders the certificate of a transaction: the number of its variant, and the certificate. The
/// encoding of the transaction is not made again.
#[tactic(auto, using(wire_bcs::specs::Wrote::parts), unfolding(chain_messages::specs::Messages::certificate, chain_messages::specs::Messages::entry))]
fn write_entry(
    writer: &mut Writer,
    signed: &SharedTx,
    origins: &Seq<Option<Digest>>,
    seals: &Seq<MemberSeal>,
) -> Result<(), OutOfMemory>
    requires { codecs.certificate.short (with_seals signed.now.tx origins.now seals.now) }
    ensures { Writes writer.old writer.new (codecs.entry.spell (entries.Cert (with_seals signed.now.tx origins.now seals.now))) result }
{
    writer.put_tag(CERT)?;
    writer.put_fixed(signed.tx_bytes())?;
    origins.write_into(writer)?;
    seals.write_into(writer)?;
    Ok(())
}

/// The number of the variant of entries that order a certificate.
const CERT: u32 = 0;

/// In bytes: the most that the variant's number and the lengths of the two lists take.
const LENGTHS: usize = 11;

/// In bytes: the most that an origin takes.
const ORIGIN: usize = 33;

/// In bytes: what a member's seal takes.
const SEAL: usize = 36;

/// The encoding of the entry that orders the certificate of a transaction.
fn encoded(
    alloc: Global,
    signed: &SharedTx,
    origins: &Seq<Option<Digest>>,
    seals: &Seq<MemberSeal>,
) -> Result<Seq<u8>, OutOfMemory>
    requires { codecs.certificate.short (with_seals signed.now.tx origins.now seals.now) }
    ensures { IfOk result (λ bytes. bytes ≡ codecs.entry.spell (entries.Cert (with_seals signed.now.tx origins.now seals.now))) }
{
    let lists = (origins.len() as usize)
        .saturating_mul(ORIGIN)
        .saturating_add((seals.len() as usize).saturating_mul(SEAL));
    let room = signed
        .tx_bytes()
        .len()
        .saturating_add(lists)
        .saturating_add(LENGTHS);
    let mut writer = Writer::with_room(alloc, room)?;
    write_entry(&mut writer, signed, origins, seals)?;
    Ok(writer.finish())
}

impl FormedCertificate {
    /// The certificate of a transaction, with the origins and the seals of its votes.
    pub(crate) fn new(
        alloc: Global,
        signed: SharedTx,
        origins: Seq<Option<Digest>>,
        seals: Seq<MemberSeal>,
    ) -> Result<FormedCertificate, OutOfMemory>
        requires { codecs.certificate.short (with_seals signed.tx origins seals) }
        ensures { IfOk result (λ c. c ≡ with_seals signed.tx origins seals) }
    {
        let bytes = encoded(alloc, &signed, &origins, &seals)?;
        Ok(FormedCertificate {
            signed,
            origins,
            seals,
            entry: SharedBytes::new(alloc, bytes)?,
        })
    }

    /// The epoch of its transaction. Takes no memory.
    pub fn epoch(&self) -> u64
        ensures { result ≡ self.now.tx.epoch }
    {
        self.signed.value().tx.epoch
    }

    /// The encoding of the entry that orders it. Takes no memory.
    pub(crate) fn entry(&self) -> &SharedBytes
        ensures { result.now ≡ codecs.entry.spell (entries.Cert self.now) }
    {
        &self.entry
    }

    /// Its encoding. Takes no memory.
    pub fn bytes(&self) -> &[u8]
        ensures { result.now ≡ codecs.certificate.spell self.now }
    {
        match self.entry.get().as_slice() {
            [_number, certificate @ ..] => certificate,
            [] => &[],
        }
    }

    /// The certificate, copied.
    pub fn copy(&self) -> Result<Certificate, OutOfMemory>
        ensures { IfOk result (λ c. c ≡ self.now) }
    {
        Ok(Certificate {
            tx: self.signed.value().tx.copy()?,
            origins: self.origins.copy()?,
            seals: self.seals.copy()?,
        })
    }
}
