//! Lists that go into a caller's buffers.

ghost use Rattle.std.specs.Prelude.{◌≡◌, ◌≤◌, ◌==◌, false, length};
ghost use Rattle.light_client.specs.declared.listing.Listing.{Listing as ListingOf};
ghost use Rattle.kothaysu.specs.Buffers.{Listed, filled, list_told};

use crate::answer::{Answer, said};
use light_client::{Listing, SealRow};

/// Puts items at the beginning of a buffer.
pub(crate) fn fill<T: Copy + Drop>(buffer: &mut [T], items: &[T])
    requires { length items.now ≤ length buffer.old }
    ensures { buffer.new ≡ filled buffer.old items.now }
{
    let (front, _) = buffer.split_at_mut(items.len());
    front.copy_from_slice(items);
}

/// Puts a listing into buffers, if both have room for it.
pub(crate) fn put_listing(listing: &Listing, rows: &mut [SealRow], statements: &mut [u8]) -> Answer
    ensures told { result ≡ list_told (length rows.old) (length statements.old) listing.now }
    ensures put { result.code ≡ 0 → Listed rows.old rows.new statements.old statements.new listing.now }
    ensures kept_rows { (result.code == 0) ≡ false → rows.new ≡ rows.old }
    ensures kept_statements { (result.code == 0) ≡ false → statements.new ≡ statements.old }
{
    let count = listing.rows.len();
    let bytes = listing.statements.len();
    if count > rows.len() as u64 || bytes > statements.len() as u64 {
        return said(14, 0, count, bytes);
    }
    fill(rows, listing.rows.as_slice());
    fill(statements, listing.statements.as_slice());
    said(0, 0, count, bytes)
}
