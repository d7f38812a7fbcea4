//! What contracts see of the member behind a vote desk. It exists only for contracts: no value of it is made.

use validator_core::Validator;
use wire_bcs::Seq;

/// The member, the sealer by which its answers are judged, the keeper's count of faults and, if they are observable,
/// the keeper's lists.
#[derive(Drop)]
pub struct DeskView<S> {
    pub validator: Validator,
    pub sealer: S,
    pub faults: u64,
    pub lists: Option<Seq<Seq<Seq<u8>>>>,
}
