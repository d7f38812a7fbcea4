//! New entries of a map that keeps the order of insertion.

ghost use Rattle.std.specs.Prelude.{◌≡◌, ◌+◌, ◌<◌, ◌≤◌, ◌++◌, ◌∷◌, [], OnOk, OnErr, false, is_some};
ghost use Rattle.indexmap.specs.IndexMap.{insert_entry, spare};
ghost use Rattle.std.specs.Map.{lookup};

use indexmap::IndexMap;
use std::hash::Hash;
use wire_bcs::OutOfMemory;

/// Adds an entry whose key is new, at the end. A refusal changes nothing.
pub fn insert_new<K: Eq + Hash + Drop, V: Drop>(
    map: &mut IndexMap<K, V>,
    key: K,
    value: V,
) -> Result<(), OutOfMemory>
    requires { is_some (lookup (K.eq key) map.old.entries) ≡ false }
    ensures ok { OnOk result (map.new.entries ≡ map.old.entries ++ (key, value) ∷ []) }
    ensures err { OnErr result (map.new.entries ≡ map.old.entries) }
{
    map.insert(key, value)?;
    Ok(())
}

/// Puts a value under a key, for which there is room.
pub fn insert_in_room<K: Eq + Hash + Drop, V: Drop>(map: &mut IndexMap<K, V>, key: K, value: V)
    requires { 0 < spare map.old }
    ensures entries { map.new.entries ≡ insert_entry K.eq map.old.entries key value }
    ensures room { spare map.old ≤ spare map.new + 1 }
{
    match map.insert(key, value) {
        Ok(_) => {}
        Err(_) => unreachable!(),
    }
}
