//! A table by pairs, as a map of maps: one call removes all that is stored at a first key.
ghost use Rattle.std.specs.Prelude.{◌≡◌, option_copied};
ghost use Rattle.std.specs.FinMap.{get, remove};
ghost use Rattle.index_plain.specs.Pairs.{PutsPair, PutsPairAlone, TurnsBy, as_pairs, pairs_in, without_first};
ghost use Rattle.index_plain.specs.Picked.{PicksSecond};

use crate::key::Key;
use crate::table;
use std::alloc::{AllocError, Global};
use std::collections::BTreeMap;

/// The value at a pair.
pub fn find<'a, A: Key, B: Key, V>(
    map: &'a BTreeMap<A, BTreeMap<B, V>>,
    first: &A,
    second: &B,
) -> Option<&'a V>
    ensures { option_copied result ≡ get (pairs_in A.cmp B.cmp map.now) (first.now, second.now) }
{
    match table::find(map, first) {
        Some(inner) => table::find(inner, second),
        None => None,
    }
}

/// A second key that is stored at a first key, if there is one.
pub fn first_at<'a, A: Key, B: Key, V>(
    map: &'a BTreeMap<A, BTreeMap<B, V>>,
    first: &A,
) -> Option<&'a B>
    ensures { PicksSecond A.cmp B.cmp map.now first.now result }
{
    match table::find(map, first) {
        Some(inner) => table::first_key(inner),
        None => None,
    }
}

/// Removes all that is stored at a first key.
#[tactic(auto, using(crate::proofs::PairLemmas::pairs_remove))]
pub fn clear<A: Key, B: Key, V: Drop>(map: &mut BTreeMap<A, BTreeMap<B, V>>, first: &A)
    ensures { TurnsBy A.cmp B.cmp map.old map.new (without_first A.cmp B.cmp first.now) }
{
    table::remove(map, first);
}

/// Puts a value at a pair, in place of an earlier one. If memory runs out, the map stays as it was.
pub fn put<A: Key, B: Key, V: Drop>(
    alloc: Global,
    map: &mut BTreeMap<A, BTreeMap<B, V>>,
    first: &A,
    second: &B,
    value: V,
) -> Result<(), AllocError>
    ensures { PutsPair (as_pairs A.cmp B.cmp map.old map.new) (first.now, second.now) value result }
{
    match map.get_mut(first) {
        Some(inner) => table::put(inner, second, value),
        None => put_alone(alloc, map, first, second, value),
    }
}

/// Puts a pair with its value, in place of all that was stored at its first key. If memory runs out, the map stays as
/// it was.
pub fn put_alone<A: Key, B: Key, V: Drop>(
    alloc: Global,
    map: &mut BTreeMap<A, BTreeMap<B, V>>,
    first: &A,
    second: &B,
    value: V,
) -> Result<(), AllocError>
    ensures { PutsPairAlone (as_pairs A.cmp B.cmp map.old map.new)
        (first.now, second.now) value result }
{
    let alone = table::one(alloc, second, value)?;
    table::put(map, first, alone)
}

/// Removes a pair with its value.
pub fn remove<A: Key, B: Key, V: Drop>(map: &mut BTreeMap<A, BTreeMap<B, V>>, first: &A, second: &B)
    ensures { TurnsBy A.cmp B.cmp map.old map.new (λ pairs. remove pairs (first.now, second.now)) }
{
    take(map, first, second);
    if first_at(map, first).is_none() {
        clear(map, first);
    }
}

/// Removes a pair with its value, from an inner map that stays.
fn take<A: Key, B: Key, V: Drop>(map: &mut BTreeMap<A, BTreeMap<B, V>>, first: &A, second: &B)
    ensures { TurnsBy A.cmp B.cmp map.old map.new (λ pairs. remove pairs (first.now, second.now)) }
{
    if let Some(inner) = map.get_mut(first) {
        table::remove(inner, second);
    }
}
