//! What a run leaves.

ghost use Rattle.std.specs.Prelude.{◌≡◌, [], IfOk, OnOk, slice_get};
ghost use Rattle.std.specs.List.{list_all};
ghost use Rattle.protocol_spec.specs.Member.Rounds.{is_origin_done, left};
ghost use Rattle.exec_plan.specs.Books.{books_of, left_in, may_be_left};
ghost use Rattle.exec_plan.specs.Steps.{left_add, left_after, left_of};
ghost use Rattle.exec_plan.specs.Waits.{IsWaiting};

use crate::inputs::{first_missing, is_let};
use crate::makers::awaited;
use crate::past::PlannedView;
use crate::waiting::DependencyIndex;
use digest_core::Digest;
use indexmap::IndexSet;
use protocol_spec::{Held, Left};
use std::alloc::Global;
use version_assign::Admission;
use version_store::Store;
use wire_bcs::{OutOfMemory, Seq};

/// Whether the transaction that an origin names is executed, if it names one.
fn is_origin_done(store: &Store, origin: &Option<Digest>) -> bool
    ensures { result ≡ is_origin_done store.now.executed origin.now }
{
    match origin {
        Some(tx) => store.is_executed(tx),
        None => true,
    }
}

/// Whether the transactions that these origins name are executed.
fn are_origins_done(store: &Store, origins: &[Option<Digest>]) -> bool
    ensures { result ≡ list_all (is_origin_done store.now.executed) origins.now }
{
    let mut rest = origins;
    while let [origin, after @ ..] = rest {
        if !is_origin_done(store, origin) {
            return false;
        }
        rest = after;
    }
    true
}

/// Whether a certificate may run and is not executed, although all its origins are.
fn may_be_left(store: &Store, admission: &Admission, held: &Held) -> bool
    ensures { result ≡ may_be_left store.now.executed admission.now.admission held.now }
{
    !store.is_executed(&held.digest)
        && is_let(admission, held)
        && are_origins_done(store, held.cert.get().origins.as_slice())
}

/// The `Left` of a certificate: it is not executed although all that it waits for is; none if it is not left.
#[tactic(auto, using(crate::proofs::LeftOver::left_so))]
fn left_one(alloc: Global, store: &Store, admission: &Admission, held: &Held) -> Option<Left>
    ensures { result ≡ left_in store.now admission.now.admission held.now }
{
    if !may_be_left(store, admission, held) {
        return None;
    }
    let none = IndexSet::new(alloc);
    if awaited(&PlannedView::of(store, &none), admission, held).is_some() {
        return None;
    }
    Some(Left {
        tx: held.digest,
        key: first_missing(store, admission, held),
    })
}

/// [`left_one`] for the certificate at a place, if there is one.
fn left_at(
    alloc: Global,
    store: &Store,
    admission: &Admission,
    held: &[Held],
    place: usize,
) -> Option<Left>
    ensures { result ≡ left_of store.now admission.now.admission (slice_get held.now place) }
{
    match held.get(place) {
        Some(held) => left_one(alloc, store, admission, held),
        None => None,
    }
}

/// Adds one to those left, if there is one.
fn add_left(left: &mut Seq<Left>, one: Option<Left>) -> Result<(), OutOfMemory>
    ensures { OnOk result (left.new ≡ left_add left.old one) }
{
    match one {
        Some(one) => left.push(one),
        None => Ok(()),
    }
}

/// The certificates at these places that a run leaves, in order.
fn left_among(
    alloc: Global,
    store: &Store,
    admission: &Admission,
    held: &[Held],
    places: &[usize],
) -> Result<Seq<Left>, OutOfMemory>
    ensures { IfOk result (λ left. left ≡ left_after store.now admission.now.admission held.now [] places.now) }
{
    let mut left = Seq::new(alloc);
    let mut rest = places;
    while let [place, after @ ..] = rest {
        let one = left_at(alloc, store, admission, held, *place);
        add_left(&mut left, one)?;
        rest = after;
    }
    Ok(left)
}

/// The held certificates that are not executed although all that they wait for is, in order of holding:
/// each with the first version that is not held, or with none if what it wants is held and it does not
/// fit, or what it writes is not new. One that names a shared object is among them once it is admitted.
/// Looks at the certificates that wait for nothing and are not executed.
#[tactic(auto, using(crate::proofs::Filing::left_now))]
pub fn left(
    alloc: Global,
    store: &Store,
    admission: &Admission,
    waiting: &DependencyIndex,
    held: &[Held],
) -> Result<Seq<Left>, OutOfMemory>
    requires waiting { IsWaiting store.now admission.now.admission held.now waiting.now }
    ensures { IfOk result (λ all. all ≡ left (books_of store.now admission.now.admission held.now) store.now.executed) }
{
    let places = waiting.open_places(alloc)?;
    left_among(alloc, store, admission, held, places.as_slice())
}
