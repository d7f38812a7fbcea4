//! The certificates that share a version, by a map from each version to whether it is consumed more than once.

ghost use Rattle.std.specs.Prelude.{◌≡◌, [], IfOk, OnOk, filter, fold};
ghost use Rattle.std.specs.List.{list_any};
ghost use Rattle.chain_types.specs.Digests.{consumed_keys};
ghost use Rattle.inspect.specs.Uses.{is_shared, is_suspect, with_cert, with_use, with_uses};

use chain_messages::Certificate;
use chain_types::{ObjectKey, owned_keys};
use indexmap::IndexMap;
use std::alloc::Global;
use std::marker::Model;
use wire_bcs::{Duplicate, OutOfMemory, Seq};

/// The consumed versions. Contracts see each with whether it is consumed more than once.
#[derive(Drop)]
struct UseTable {
    more: IndexMap<ObjectKey, bool>,
}

impl Model for UseTable {
    ghost use Rattle.inspect.specs.Uses.{Uses};

    ghost Value = { Uses };

    ghost view = { λ t. t.more.entries };
}

impl UseTable {
    /// No versions. Takes no memory.
    fn new(alloc: Global) -> UseTable
        ensures { result ≡ [] }
    {
        UseTable {
            more: IndexMap::new(alloc),
        }
    }

    /// Whether the version is consumed more than once. Takes no memory.
    fn is_shared(&self, key: &ObjectKey) -> bool
        ensures { result ≡ is_shared self.now key.now }
    {
        match self.more.get(key) {
            Some(more) => *more,
            None => false,
        }
    }

    /// Notes that a version is consumed.
    fn add(&mut self, key: ObjectKey) -> Result<(), OutOfMemory>
        ensures { OnOk result (self.new ≡ with_use self.old key) }
    {
        let more = self.more.contains_key(&key);
        self.more.insert(key, more)?;
        Ok(())
    }

    /// Notes that versions are consumed.
    fn add_keys(&mut self, keys: &[ObjectKey]) -> Result<(), OutOfMemory>
        ensures { OnOk result (self.new ≡ with_uses self.old keys.now) }
    {
        for key in keys {
            self.add(*key)?;
        }
        Ok(())
    }

    /// Notes what a certificate's transaction consumes.
    fn add_cert(&mut self, alloc: Global, cert: &Certificate) -> Result<(), OutOfMemory>
        ensures { OnOk result (self.new ≡ with_cert self.old cert.now) }
    {
        let keys = owned_keys(alloc, &cert.tx)?;
        self.add_keys(keys.as_slice())
    }

    /// Whether one of the versions is consumed more than once. Takes no memory.
    fn any_shared(&self, keys: &[ObjectKey]) -> bool
        ensures { result ≡ list_any (is_shared self.now) keys.now }
    {
        for key in keys {
            if self.is_shared(key) {
                return true;
            }
        }
        false
    }

    /// Whether a certificate's transaction consumes a version that is consumed more than once.
    fn is_suspect(&self, alloc: Global, cert: &Certificate) -> Result<bool, OutOfMemory>
        ensures { IfOk result (λ suspect. suspect ≡ is_suspect self.now cert.now) }
    {
        let keys = owned_keys(alloc, &cert.tx)?;
        Ok(self.any_shared(keys.as_slice()))
    }
}

/// What the transactions of certificates consume.
fn uses_of(alloc: Global, certs: &[Certificate]) -> Result<UseTable, OutOfMemory>
    ensures { IfOk result (λ uses. uses ≡ fold with_cert [] certs.now) }
{
    let mut uses = UseTable::new(alloc);
    for cert in certs {
        uses.add_cert(alloc, cert)?;
    }
    Ok(uses)
}

/// Copies of the certificates that consume a version which is consumed more than once.
fn suspects_by(
    alloc: Global,
    uses: &UseTable,
    certs: &[Certificate],
) -> Result<Seq<Certificate>, OutOfMemory>
    ensures { IfOk result (λ suspects. suspects ≡ filter (is_suspect uses.now) certs.now) }
{
    let mut suspects = Seq::new(alloc);
    for cert in certs {
        if uses.is_suspect(alloc, cert)? {
            suspects.push(cert.copy()?)?;
        }
    }
    Ok(suspects)
}

/// Copies of the certificates that consume a version which another one of them consumes too.
pub(crate) fn suspects(
    alloc: Global,
    certs: &[Certificate],
) -> Result<Seq<Certificate>, OutOfMemory>
    ensures { IfOk result (λ suspects. suspects ≡ filter (is_suspect (fold with_cert [] certs.now)) certs.now) }
{
    let uses = uses_of(alloc, certs)?;
    suspects_by(alloc, &uses, certs)
}
