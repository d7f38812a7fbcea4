//! What keeps a member from saying End: the first held certificate that is not in the sequence.

ghost use Rattle.std.specs.Prelude.{◌≡◌, ◌+◌, ◌≤◌, drop, length, option_map, slice_get};
ghost use Rattle.protocol_spec.specs.declared.answers.Held.{Held as H};
ghost use Rattle.protocol_spec.specs.Chain.Words.{first_of};
ghost use Rattle.epoch_turn.specs.Dues.{front_length, is_ordered, unordered};

use digest_core::Digest;
use protocol_spec::Held;
use version_assign::Admission;

/// The certificates from this place on.
fn held_from(held: &[Held], place: usize) -> &[Held]
    requires { place ≤ length held.now }
    ensures { result.now ≡ drop place held.now }
{
    &held[place..]
}

/// How many of them are in the sequence, up to the first that is not. Takes no memory.
fn front_ordered(held: &[Held], admission: &Admission) -> usize
    ensures value { result ≡ front_length (is_ordered admission.now.admission) held.now }
    ensures most { result ≤ length held.now }
{
    let mut count = 0;
    let mut rest = held;
    while let [one, after @ ..] = rest {
        if !admission.is_known(&one.digest) {
            return count;
        }
        count += 1;
        rest = after;
    }
    count
}

/// How many of the first that are held are in the sequence, up to the first that is not, if this many are known to be.
/// Looks only at those after them. Takes no memory.
#[tactic(auto, using(crate::proofs::Fronts::front_within))]
pub fn ordered_on(held: &[Held], admission: &Admission, ordered: usize) -> usize
    requires { ordered ≤ front_length (is_ordered admission.now.admission) held.now }
    ensures { result ≡ front_length (is_ordered admission.now.admission) held.now }
{
    let _most = held.len();
    ordered + front_ordered(held_from(held, ordered), admission)
}

/// The transaction whose certificate is at this place.
fn digest_at(held: &[Held], place: usize) -> Option<Digest>
    ensures { result ≡ option_map (λ (h : H). h.digest) (slice_get held.now place) }
{
    match held.get(place) {
        Some(one) => Some(one.digest),
        None => None,
    }
}

/// The first transaction that is held and not in the sequence; this many of the first that are held are in it, and are not
/// looked at. Takes no memory.
#[tactic(auto, using(crate::proofs::Fronts::front_within))]
pub fn first_unordered(held: &[Held], admission: &Admission, ordered: usize) -> Option<Digest>
    requires { ordered ≤ front_length (is_ordered admission.now.admission) held.now }
    ensures { result ≡ first_of (unordered admission.now.admission) held.now }
{
    let rest = held_from(held, ordered);
    digest_at(rest, front_ordered(rest, admission))
}
