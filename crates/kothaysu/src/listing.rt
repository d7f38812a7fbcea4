//! The calls that list the seals of a chain, a certificate or acknowledgements, for a caller that checks seals itself.

ghost use Rattle.std.specs.Prelude.{◌≡◌, ◌==◌, false, length};
ghost use Rattle.light_client.specs.Listing.{acknowledgements_listing, certificate_listing, chain_listing};
ghost use Rattle.kothaysu.specs.Answers.{Answered, as_answer};
ghost use Rattle.kothaysu.specs.Buffers.{PutsList, told_list};

use crate::answer::Answer;
use crate::buffers::put_listing;
use light_client::{Listing, SealRow, list_acknowledgements, list_certificate, list_chain};
use std::alloc::Global;

/// The seals of the chain that the bytes encode.
fn of_chain(alloc: Global, bytes: &[u8]) -> Result<Listing, Answer>
    ensures { Answered result (as_answer (chain_listing bytes.now)) }
{
    Ok(list_chain(alloc, bytes)?)
}

/// The seals of the chain that the bytes encode, each on what its member states of the checkpoint. Code 0: `rows` and `statements` begin
/// with the listing; `first` is the number of its rows, `second` that of the bytes of its statements. Code 14: one of them has too
/// little room, `first` and `second` say how much is needed, and nothing is written.
#[unsafe(no_mangle)]
pub extern "C" fn kothaysu_chain_seals(
    alloc: Global,
    bytes: &[u8],
    rows: &mut [SealRow],
    statements: &mut [u8],
    answer: &mut Answer,
) -> u32
    ensures code { result ≡ answer.new.code }
    ensures told { (answer.new.code == 1) ≡ false → answer.new ≡ told_list (length rows.old) (length statements.old) (as_answer (chain_listing bytes.now)) }
    ensures put { answer.new.code ≡ 0 → PutsList rows.old rows.new statements.old statements.new (as_answer (chain_listing bytes.now)) }
    ensures kept_rows { (answer.new.code == 0) ≡ false → rows.new ≡ rows.old }
    ensures kept_statements { (answer.new.code == 0) ≡ false → statements.new ≡ statements.old }
{
    *answer = match of_chain(alloc, bytes) {
        Ok(listing) => {
            let told = put_listing(&listing, rows, statements);
            drop(listing);
            told
        }
        Err(why) => why,
    };
    answer.code
}

/// The seals of the certificate that the bytes encode.
fn of_certificate(alloc: Global, bytes: &[u8]) -> Result<Listing, Answer>
    ensures { Answered result (as_answer (certificate_listing bytes.now)) }
{
    Ok(list_certificate(alloc, bytes)?)
}

/// The seals of the certificate that the bytes encode, each on the vote of its member. Code 0: `rows` and `statements` begin
/// with the listing; `first` is the number of its rows, `second` that of the bytes of its statements. Code 14: one of them has too
/// little room, `first` and `second` say how much is needed, and nothing is written.
#[unsafe(no_mangle)]
pub extern "C" fn kothaysu_certificate_seals(
    alloc: Global,
    bytes: &[u8],
    rows: &mut [SealRow],
    statements: &mut [u8],
    answer: &mut Answer,
) -> u32
    ensures code { result ≡ answer.new.code }
    ensures told { (answer.new.code == 1) ≡ false → answer.new ≡ told_list (length rows.old) (length statements.old) (as_answer (certificate_listing bytes.now)) }
    ensures put { answer.new.code ≡ 0 → PutsList rows.old rows.new statements.old statements.new (as_answer (certificate_listing bytes.now)) }
    ensures kept_rows { (answer.new.code == 0) ≡ false → rows.new ≡ rows.old }
    ensures kept_statements { (answer.new.code == 0) ≡ false → statements.new ≡ statements.old }
{
    *answer = match of_certificate(alloc, bytes) {
        Ok(listing) => {
            let told = put_listing(&listing, rows, statements);
            drop(listing);
            told
        }
        Err(why) => why,
    };
    answer.code
}

/// The seals of the list of sealed statements that the bytes encode.
fn of_acknowledgements(alloc: Global, bytes: &[u8]) -> Result<Listing, Answer>
    ensures { Answered result (as_answer (acknowledgements_listing bytes.now)) }
{
    Ok(list_acknowledgements(alloc, bytes)?)
}

/// The seals of the list of sealed statements that the bytes encode, each on its statement. Code 0: `rows` and `statements` begin
/// with the listing; `first` is the number of its rows, `second` that of the bytes of its statements. Code 14: one of them has too
/// little room, `first` and `second` say how much is needed, and nothing is written.
#[unsafe(no_mangle)]
pub extern "C" fn kothaysu_final_seals(
    alloc: Global,
    bytes: &[u8],
    rows: &mut [SealRow],
    statements: &mut [u8],
    answer: &mut Answer,
) -> u32
    ensures code { result ≡ answer.new.code }
    ensures told { (answer.new.code == 1) ≡ false → answer.new ≡ told_list (length rows.old) (length statements.old) (as_answer (acknowledgements_listing bytes.now)) }
    ensures put { answer.new.code ≡ 0 → PutsList rows.old rows.new statements.old statements.new (as_answer (acknowledgements_listing bytes.now)) }
    ensures kept_rows { (answer.new.code == 0) ≡ false → rows.new ≡ rows.old }
    ensures kept_statements { (answer.new.code == 0) ≡ false → statements.new ≡ statements.old }
{
    *answer = match of_acknowledgements(alloc, bytes) {
        Ok(listing) => {
            let told = put_listing(&listing, rows, statements);
            drop(listing);
            told
        }
        Err(why) => why,
    };
    answer.code
}
