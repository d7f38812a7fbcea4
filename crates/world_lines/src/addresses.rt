//! The addresses of users, by their names.

ghost use Rattle.std.specs.Prelude.{◌≡◌, [], IfOk};
ghost use Rattle.digest_core.specs.Tagged.{address_of_name};

use digest_core::{Digest, address_of};
use std::alloc::Global;
use std::marker::Model;
use tables::NameMap;
use wire_bcs::OutOfMemory;

/// Addresses of users, so that a name is hashed once. Contracts see the pairs of name and address.
#[derive(Drop)]
pub(crate) struct Addresses {
    known: NameMap<Digest>,
}

impl Model for Addresses {
    ghost use Rattle.digest_core.specs.declared.Digest.{Digest as Sum};
    ghost use Rattle.tables.specs.Named.{Named};
    ghost use Rattle.world_lines.specs.Addressed.{AreAddresses};

    ghost Value = { Named Sum };

    ghost view = { λ a. a.known };

    ghost invariant = { λ a. AreAddresses a.known };
}

impl Addresses {
    /// No address is known. Takes no memory.
    pub(crate) fn new(alloc: Global) -> Addresses
        ensures { result ≡ [] }
    {
        Addresses {
            known: NameMap::new(alloc),
        }
    }

    /// The address of the user of this name. Takes no memory.
    pub(crate) fn find(&self, name: &[u8]) -> Digest
        ensures { result ≡ address_of_name name.now }
    {
        match self.known.get(name) {
            Some(address) => *address,
            None => address_of(name),
        }
    }

    /// The address of the user of this name, which is known from now on.
    pub(crate) fn note(&mut self, name: &[u8]) -> Result<Digest, OutOfMemory>
        ensures { IfOk result (λ address. address ≡ address_of_name name.now) }
    {
        let address = self.find(name);
        self.add(name, address)?;
        Ok(address)
    }

    /// Keeps the address of a name. A refusal changes nothing.
    fn add(&mut self, name: &[u8], address: Digest) -> Result<(), OutOfMemory>
        requires { address ≡ address_of_name name.now }
    {
        self.known.add(name, address)?;
        Ok(())
    }
}
