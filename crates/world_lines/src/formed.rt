//! The book of certificates.

ghost use Rattle.std.specs.Prelude.{◌≡◌, ◌++◌, ◌∷◌, [], OnErr, OnOk, bytes_eq, option_and_then, option_copied, option_map, slice_get};
ghost use Rattle.indexmap.specs.IndexMap.{insert_entry};
ghost use Rattle.protocol_spec.specs.Chain.Words.{last_where};
ghost use Rattle.world_spec.specs.World.{Formed};
ghost use Rattle.world_spec.specs.Names.{cert_in};
ghost use Rattle.world_lines.specs.Rows.{row_cert};

use crate::certificate::FormedCertificate;
use crate::said::push_in_room;
use indexmap::IndexMap;
use std::alloc::Global;
use std::marker::Model;
use std::snapshot::Snapshot;
use wire_bcs::OutOfMemory;

/// A certificate. Its row keeps the name for which it was formed for contracts only; code finds it by the map.
#[derive(Drop)]
pub(crate) struct FormedRow {
    name: Snapshot<Vec<u8>>,
    cert: FormedCertificate,
}

/// Notes the place of a name; it replaces an older one. A refusal changes nothing.
fn note_name(
    places: &mut IndexMap<Vec<u8>, usize>,
    name: Vec<u8>,
    place: usize,
) -> Result<(), OutOfMemory>
    ensures ok { OnOk result (places.new.entries ≡ insert_entry (λ a b. bytes_eq a.items b.items) places.old.entries name place) }
    ensures err { OnErr result (places.new.entries ≡ places.old.entries) }
{
    places.insert(name, place)?;
    Ok(())
}

/// The certificate of the row at a place. Takes no memory.
fn cert_at(rows: &[FormedRow], place: Option<usize>) -> Option<&FormedCertificate>
    ensures { option_copied result ≡ option_map row_cert (option_and_then (slice_get rows.now) place) }
{
    match place {
        Some(place) => match rows.get(place) {
            Some(row) => Some(&row.cert),
            None => None,
        },
        None => None,
    }
}

/// The certificates formed in a run. Contracts see them with their names, in the order of forming.
#[derive(Drop)]
pub struct FormedCertificates {
    rows: Vec<FormedRow>,
    /// The place of the last certificate of each name.
    places: IndexMap<Vec<u8>, usize>,
    alloc: Global,
}

impl Model for FormedCertificates {
    ghost use Rattle.std.specs.Prelude.{List, bytes_eq};
    ghost use Rattle.world_spec.specs.World.{Formed};
    ghost use Rattle.world_lines.specs.Places.{LastPlaced};
    ghost use Rattle.world_lines.specs.Rows.{formed_list, is_named};

    ghost Value = { List Formed };

    ghost view = { λ b. formed_list b.rows.items };

    ghost invariant = { λ b. LastPlaced (λ name k. bytes_eq name k.items) is_named b.rows.items b.places.entries };
}

impl FormedCertificates {
    /// A book without certificates. Takes no memory.
    pub fn new(alloc: Global) -> FormedCertificates
        ensures { result ≡ [] }
    {
        FormedCertificates {
            rows: Vec::new(alloc),
            places: IndexMap::new(alloc),
            alloc,
        }
    }

    /// Adds a certificate that was formed for this name. A refusal changes nothing.
    pub fn add(&mut self, name: &[u8], cert: FormedCertificate) -> Result<(), OutOfMemory>
        ensures ok { OnOk result (self.new ≡ self.old ++ record { name = name.now; cert = cert } ∷ []) }
        ensures err { OnErr result (self.new ≡ self.old) }
    {
        let key = Vec::from_slice(self.alloc, name)?;
        let kept = Snapshot::of(&key);
        self.rows.reserve(1)?;
        let place = self.rows.as_slice().len();
        note_name(&mut self.places, key, place)?;
        push_in_room(&mut self.rows, FormedRow { name: kept, cert });
        Ok(())
    }

    /// The certificate that was formed last for this name; none exactly if none was. Takes no memory.
    pub fn last_named(&self, name: &[u8]) -> Option<&FormedCertificate>
        ensures { option_copied result ≡ option_map cert_in (last_where (λ (f : Formed). bytes_eq f.name name.now) self.now) }
    {
        let place = self.places.get(name).copied();
        cert_at(self.rows.as_slice(), place)
    }

    /// The certificate at a place, counted from 0 in the order of forming; none exactly if none stands there. Takes no
    /// memory.
    pub fn at(&self, place: usize) -> Option<&FormedCertificate>
        ensures { option_copied result ≡ option_map cert_in (slice_get self.now place) }
    {
        cert_at(self.rows.as_slice(), Some(place))
    }
}
