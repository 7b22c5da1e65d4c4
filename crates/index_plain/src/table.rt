//! A table as one ordered map.
#![tactic(auto, using(crate::proofs::TreeLemmas::trees))]

ghost use Rattle.std.specs.Prelude.{◌≡◌, IfOk, IsSome, option_and_then, option_copied};
ghost use Rattle.std.specs.FinMap.{empty, get, insert, remove};
ghost use Rattle.index_rules.specs.Results.{Returns};
ghost use Rattle.index_plain.specs.Picked.{PicksKey};
ghost use Rattle.index_plain.specs.Trees.{Puts, map_of, with_at};

use crate::key::Key;
use std::alloc::{AllocError, Global};
use std::collections::BTreeMap;

/// A map of one entry.
pub fn one<K: Key, V: Drop>(alloc: Global, key: &K, value: V) -> Result<BTreeMap<K, V>, AllocError>
    ensures { IfOk result (λ map. map_of K.cmp map ≡ insert empty key.now value) }
{
    let mut map = BTreeMap::new(alloc);
    put(&mut map, key, value)?;
    Ok(map)
}

/// The value at a key.
pub fn find<'a, K: Key, V>(map: &'a BTreeMap<K, V>, key: &K) -> Option<&'a V>
    ensures { option_copied result ≡ get (map_of K.cmp map.now) key.now }
{
    map.get(key)
}

/// A key of the map, if it has one.
pub fn first_key<K: Key, V>(map: &BTreeMap<K, V>) -> Option<&K>
    ensures { PicksKey (map_of K.cmp map.now) result }
{
    match map.first_key_value() {
        Some((key, _)) => Some(key),
        None => None,
    }
}

/// A copy of the value at a key.
pub fn copy_at<K: Key, V: Clone>(map: &BTreeMap<K, V>, key: &K) -> Result<Option<V>, AllocError>
    requires exact { (value copy : V) → V.is_clone value copy → copy ≡ value }
    ensures { Returns result (get (map_of K.cmp map.now) key.now) }
{
    find(map, key).cloned()
}

/// A copy of the value at a key, if there is a key.
pub fn copy_at_key<K: Key, V: Clone>(
    map: &BTreeMap<K, V>,
    key: &Option<K>,
) -> Result<Option<V>, AllocError>
    requires exact { (value copy : V) → V.is_clone value copy → copy ≡ value }
    ensures { Returns result (option_and_then (get (map_of K.cmp map.now)) key.now) }
{
    match key {
        Some(key) => copy_at(map, key),
        None => Ok(None),
    }
}

/// Removes a key with its value.
pub fn remove<K: Key, V: Drop>(map: &mut BTreeMap<K, V>, key: &K)
    ensures { map_of K.cmp map.new ≡ remove (map_of K.cmp map.old) key.now }
{
    map.remove(key);
}

/// Puts a value at a key, in place of an earlier one. If memory runs out, the map stays as it was.
pub fn put<K: Key, V: Drop>(map: &mut BTreeMap<K, V>, key: &K, value: V) -> Result<(), AllocError>
    ensures { Puts (map_of K.cmp map.old) (map_of K.cmp map.new) key.now value result }
{
    replace(map, key, value)?;
    Ok(())
}

/// Puts a value at a key, and returns the earlier one. If memory runs out, the map stays as it was.
pub fn replace<K: Key, V: Drop>(
    map: &mut BTreeMap<K, V>,
    key: &K,
    value: V,
) -> Result<Option<V>, AllocError>
    ensures former { Returns result (get (map_of K.cmp map.old) key.now) }
    ensures put { Puts (map_of K.cmp map.old) (map_of K.cmp map.new) key.now value result }
{
    Ok(map.insert(key.clone()?, value)?)
}

/// Undoes `replace`: the earlier value comes back. It needs no memory.
pub fn put_back<K: Key, V: Drop>(map: &mut BTreeMap<K, V>, key: &K, former: Option<V>)
    requires { IsSome (get (map_of K.cmp map.old) key.now) }
    ensures { map_of K.cmp map.new ≡ with_at (map_of K.cmp map.old) key.now former }
{
    match former {
        Some(value) => {
            if let Some(place) = map.get_mut(key) {
                *place = value;
            }
        }
        None => {
            map.remove(key);
        }
    }
}

/// Puts a value at a key of each of two maps. If memory runs out, both stay as they were.
pub fn put_both<K: Key, V: Drop, L: Key, W: Drop>(
    map: &mut BTreeMap<K, V>,
    key: &K,
    value: V,
    other: &mut BTreeMap<L, W>,
    other_key: &L,
    other_value: W,
) -> Result<(), AllocError>
    ensures put { Puts (map_of K.cmp map.old) (map_of K.cmp map.new) key.now value result }
    ensures other_put { let before = map_of L.cmp other.old in
        Puts before (map_of L.cmp other.new) other_key.now other_value result }
{
    let former = replace(map, key, value)?;
    match put(other, other_key, other_value) {
        Ok(()) => Ok(()),
        Err(error) => {
            put_back(map, key, former);
            Err(error)
        }
    }
}
