//! What a chain of checkpoints keeps of admitted transactions and of their cuts.

ghost use Rattle.std.specs.Prelude.{◌≡◌, ◌≤◌, IfOk, drop, length, map};
ghost use Rattle.epoch_turn.specs.Chains.{tx_of};
ghost use Rattle.epoch_turn.specs.Dues.{front_length, is_due_done};

use digest_core::Digest;
use std::alloc::Global;
use version_store::Store;
use wire_bcs::OutOfMemory;

/// An admitted transaction.
#[derive(Clone, Copy)]
pub struct Due {
    pub tx: Digest,
    /// Whether the certificate that is held of it names the origins with which it was admitted.
    pub same: bool,
}

/// A cut of the admitted transactions: how many it has, and whether it is the last of its epoch.
#[derive(Clone, Copy)]
pub struct CutMark {
    pub size: usize,
    pub last: bool,
}

/// The transactions from this place on.
pub(crate) fn due_from(due: &[Due], place: usize) -> &[Due]
    requires { place ≤ length due.now }
    ensures { result.now ≡ drop place due.now }
{
    &due[place..]
}

/// The cuts from this place on.
pub(crate) fn marks_from(marks: &[CutMark], place: usize) -> &[CutMark]
    requires { place ≤ length marks.now }
    ensures { result.now ≡ drop place marks.now }
{
    &marks[place..]
}

/// The digests of these transactions.
pub(crate) fn digests_of(alloc: Global, due: &[Due]) -> Result<Vec<Digest>, OutOfMemory>
    ensures { IfOk result (λ txs. txs.items ≡ map tx_of due.now) }
{
    Ok(due.iter().map(|due| due.tx).collect(alloc)?)
}

/// Whether a transaction is done.
fn is_done(due: &Due, store: &Store) -> bool
    ensures { result ≡ is_due_done store.now.executed due.now }
{
    store.is_executed(&due.tx) && due.same
}

/// How many transactions at the start of the list are done.
pub(crate) fn front_done(due: &[Due], store: &Store) -> usize
    ensures value { result ≡ front_length (is_due_done store.now.executed) due.now }
    ensures most { result ≤ length due.now }
{
    let mut done = 0;
    let mut rest = due;
    while let [one, after @ ..] = rest {
        if !is_done(one, store) {
            return done;
        }
        done += 1;
        rest = after;
    }
    done
}
