//! Names in the lines of a report.

ghost use Rattle.std.specs.Prelude.{◌≡◌, IfOk, OnOk, map};
ghost use Rattle.world_spec.specs.Names.{key_name, object_name, tx_name};
ghost use Rattle.world_spec.specs.Report.{origin_name, origin_names, tx_names};
ghost use Rattle.world_spec.specs.Known.{setting_with, world_with};
ghost use Rattle.world_lines.specs.Pushed.{each_pushed};

use crate::Directory;
use chain_types::{ObjectId, ObjectKey};
use digest_core::Digest;
use wire_bcs::{OutOfMemory, Seq};

/// The name of a transaction.
pub fn tx_text(directory: &Directory, tx: &Digest) -> Result<Seq<u8>, OutOfMemory>
    ensures { IfOk result (λ name. name ≡ tx_name (world_with directory.now) tx.now) }
{
    Seq::from_slice(directory.allocator(), directory.tx_name(tx))
}

/// The name of a version.
pub(crate) fn version_text(directory: &Directory, key: &ObjectKey) -> Result<Seq<u8>, OutOfMemory>
    ensures { IfOk result (λ name. name ≡ key_name (setting_with directory.now) (world_with directory.now) key.now) }
{
    directory.key_name(key)
}

/// The name of an object.
pub fn object_text(directory: &Directory, id: &ObjectId) -> Result<Seq<u8>, OutOfMemory>
    ensures { IfOk result (λ name. name ≡ object_name (setting_with directory.now) (world_with directory.now) id.now) }
{
    directory.object_name(id)
}

/// Adds the names of transactions.
fn add_names(
    directory: &Directory,
    names: &mut Seq<Seq<u8>>,
    txs: &[Digest],
) -> Result<(), OutOfMemory>
    ensures { OnOk result (names.new ≡ each_pushed (tx_name (world_with directory.now)) names.old txs.now) }
{
    for tx in txs {
        let name = tx_text(directory, tx)?;
        names.push(name)?;
    }
    Ok(())
}

/// The names of transactions, in their order.
#[tactic(auto, using(crate::proofs::Pushed::from_none))]
pub(crate) fn tx_names(directory: &Directory, txs: &[Digest]) -> Result<Seq<Seq<u8>>, OutOfMemory>
    ensures { IfOk result (λ names. names ≡ tx_names (world_with directory.now) txs.now) }
{
    let mut names = Seq::with_room(directory.allocator(), txs.len() as u64)?;
    add_names(directory, &mut names, txs)?;
    Ok(names)
}

/// The name of an origin; none if the epoch opened with the version.
fn origin_name(
    directory: &Directory,
    origin: &Option<Digest>,
) -> Result<Option<Seq<u8>>, OutOfMemory>
    ensures { IfOk result (λ name. name ≡ origin_name (world_with directory.now) origin.now) }
{
    match origin {
        Some(tx) => {
            let name = tx_text(directory, tx)?;
            Ok(Some(name))
        }
        None => Ok(None),
    }
}

/// Adds the names of origins.
fn add_origins(
    directory: &Directory,
    names: &mut Seq<Option<Seq<u8>>>,
    origins: &[Option<Digest>],
) -> Result<(), OutOfMemory>
    ensures { OnOk result (names.new ≡ each_pushed (origin_name (world_with directory.now)) names.old origins.now) }
{
    for origin in origins {
        let name = origin_name(directory, origin)?;
        names.push(name)?;
    }
    Ok(())
}

/// The names of origins, in their order.
#[tactic(auto, using(crate::proofs::Pushed::from_none))]
pub(crate) fn origin_names(
    directory: &Directory,
    origins: &[Option<Digest>],
) -> Result<Seq<Option<Seq<u8>>>, OutOfMemory>
    ensures { IfOk result (λ names. names ≡ origin_names (world_with directory.now) origins.now) }
{
    let mut names = Seq::with_room(directory.allocator(), origins.len() as u64)?;
    add_origins(directory, &mut names, origins)?;
    Ok(names)
}
