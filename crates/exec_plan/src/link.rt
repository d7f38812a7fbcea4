//! Links between tasks.

use chain_types::ObjectKey;

/// A version that one task hands to a later one.
#[derive(Clone, Copy)]
pub(crate) struct Link {
    pub(crate) from: u32,
    pub(crate) to: u32,
    pub(crate) key: ObjectKey,
}
