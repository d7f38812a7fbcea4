//! What is executed, and what a plan will execute.

ghost use Rattle.std.specs.Prelude.{◌≡◌, []};
ghost use Rattle.protocol_spec.specs.Member.Versions.{is_executed};
ghost use Rattle.exec_plan.specs.Past.{as_if};

use digest_core::Digest;
use indexmap::IndexSet;
use std::marker::Model;
use version_store::Store;

/// A store, and transactions that are planned. Contracts see the store as if these had been executed.
#[derive(Drop)]
pub(crate) struct PlannedView<'a> {
    store: &'a Store,
    planned: &'a IndexSet<Digest>,
}

impl<'a> Model for PlannedView<'a> {
    ghost use Rattle.version_store.specs.Stores.{Stored};
    ghost use Rattle.exec_plan.specs.Past.{as_if};

    ghost Value = { Stored };

    ghost view = { λ p. as_if p.planned.now.keys p.store.now };
}

impl<'a> PlannedView<'a> {
    /// The store as if these transactions had been executed.
    pub(crate) fn new(store: &'a Store, planned: &'a IndexSet<Digest>) -> PlannedView<'a>
        ensures { result ≡ as_if planned.now.keys store.now }
    {
        PlannedView { store, planned }
    }

    /// The store as it is, with no transaction planned.
    pub(crate) fn of(store: &'a Store, none: &'a IndexSet<Digest>) -> PlannedView<'a>
        requires { none.now.keys ≡ [] }
        ensures { result ≡ store.now }
    {
        PlannedView {
            store,
            planned: none,
        }
    }

    /// Whether a transaction is executed or planned. Takes no memory.
    #[tactic(auto, using(crate::proofs::Looking::known_is))]
    pub(crate) fn is_executed(&self, tx: &Digest) -> bool
        ensures { result ≡ is_executed self.now.executed tx.now }
    {
        self.planned.contains(tx) || self.store.is_executed(tx)
    }
}
