//! The pairs of a relation, found by their lists: the lists that pairs name are sorted once, a list
//! is found by halves, and a pair is the two places of its lists as one number.
ghost use Rattle.std.specs.Prelude.{◌≡◌, ℕ, ◌+◌, ◌*◌, ◌^◌, ◌<◌, ◌↔◌, length, map, All, Contains, IsTrue, false, IfOk, MatchOption, slice_index_or as get_or};
ghost use Rattle.lts_base.specs.Related.{rows_of};
ghost use Rattle.cert_check.specs.Index.{IsKey, LacksKey, AreKeys, IsIndex, AreRepeats, left_of, right_of, listed};

use crate::numbers::Numbers;
use crate::ordered::{Ordered, list_at};
use cert_text::PackedRelation;
use lts_base::Memory;
use std::alloc::Global;

/// Where the pairs of a relation are found.
#[derive(Drop)]
pub(crate) struct Index<'a> {
    /// The left lists that pairs name.
    lefts: Ordered<'a>,
    /// The right lists that pairs name.
    rights: Ordered<'a>,
    /// The places of each pair's lists as one number.
    keys: Numbers,
    /// For each pair, whether an earlier one has the same lists.
    repeated: Vec<bool>,
}

/// The index of the relation's pairs. It takes time linear in the lists but for a logarithm, and the
/// lists that no pair names cost nothing.
pub(crate) fn index_of<'a>(alloc: Global, relation: &'a PackedRelation) -> Result<Index<'a>, Memory>
    ensures index { IfOk result (λ v. IsIndex relation.now v.lefts v.rights v.keys) }
    ensures repeats { IfOk result (λ v. AreRepeats relation.now (length relation.now.pairs) v.repeated.items) }
{
    let pairs = relation.pairs();
    let lefts = Ordered::new(relation.left(), named_lefts(alloc, pairs)?)?;
    let rights = Ordered::new(relation.right(), named_rights(alloc, pairs)?)?;
    let (keys, repeated) = keys_of(alloc, relation, &lefts, &rights)?;
    Ok(Index {
        lefts,
        rights,
        keys,
        repeated,
    })
}

/// The keys of all pairs, and for each pair, whether it has the key of an earlier one.
fn keys_of(
    alloc: Global,
    relation: &PackedRelation,
    lefts: &Ordered,
    rights: &Ordered,
) -> Result<(Numbers, Vec<bool>), Memory>
    requires left { All (Contains lefts.now) (listed relation.now.left (map left_of relation.now.pairs)) }
    requires right { All (Contains rights.now) (listed relation.now.right (map right_of relation.now.pairs)) }
    ensures keys { IfOk result (λ v. AreKeys relation.now lefts.now rights.now (length relation.now.pairs) v.0) }
    ensures repeats { IfOk result (λ v. AreRepeats relation.now (length relation.now.pairs) v.1.items) }
{
    let lists = relation.left();
    let others = relation.right();
    let pairs = relation.pairs();
    let mut keys = Numbers::new(alloc);
    let mut repeated = Vec::new(alloc);
    'pairs: for pair in pairs {
        let left = list_at(lists, pair.0);
        let right = list_at(others, pair.1);
        let key = known_key(lefts, rights, left, right);
        let fresh = keys.insert(key)?;
        repeated.push(!fresh)?;
    }
    Ok((keys, repeated))
}

/// The places of the pairs' left lists.
fn named_lefts(alloc: Global, pairs: &[(u32, u32)]) -> Result<Vec<u32>, Memory>
    ensures { IfOk result (λ v. v.items ≡ map left_of pairs.now) }
{
    let mut places = Vec::with_capacity(alloc, pairs.len())?;
    'pairs: for pair in pairs {
        places.push(pair.0)?;
    }
    Ok(places)
}

/// The places of the pairs' right lists.
fn named_rights(alloc: Global, pairs: &[(u32, u32)]) -> Result<Vec<u32>, Memory>
    ensures { IfOk result (λ v. v.items ≡ map right_of pairs.now) }
{
    let mut places = Vec::with_capacity(alloc, pairs.len())?;
    'pairs: for pair in pairs {
        places.push(pair.1)?;
    }
    Ok(places)
}

/// Whether an earlier pair has the lists of the pair with this number from 0.
pub(crate) fn is_repeat(index: &Index, number: usize) -> bool
    requires { number < length index.now.repeated.items }
    ensures { result ≡ get_or index.now.repeated.items number false }
{
    index.repeated[number]
}

/// The key of two lists, where both are in the index.
fn key_of(lefts: &Ordered, rights: &Ordered, left: &[u32], right: &[u32]) -> Option<u64>
    ensures { MatchOption result (LacksKey lefts.now rights.now left.now right.now) (IsKey lefts.now rights.now left.now right.now) }
{
    let Some(first) = lefts.place_of(left) else {
        return None;
    };
    let Some(second) = rights.place_of(right) else {
        return None;
    };
    Some(first as u64 * 4_294_967_296 + second as u64)
}

/// The key of two lists that are in the index.
fn known_key(lefts: &Ordered, rights: &Ordered, left: &[u32], right: &[u32]) -> u64
    requires left { Contains lefts.now left.now }
    requires right { Contains rights.now right.now }
    ensures { IsKey lefts.now rights.now left.now right.now result }
{
    match key_of(lefts, rights, left, right) {
        Some(key) => key,
        None => unreachable!(),
    }
}

/// Whether some pair of the relation holds these two lists.
pub(crate) fn has_pair(
    relation: &PackedRelation,
    index: &Index,
    left: &[u32],
    right: &[u32],
) -> bool
    requires { IsIndex relation.now index.now.lefts index.now.rights index.now.keys }
    ensures { IsTrue result ↔ Contains (rows_of relation.now) (record { left = left.now; right = right.now }) }
{
    // the relation is named by the clauses alone
    let _ = relation.pairs();
    match key_of(&index.lefts, &index.rights, left, right) {
        None => false,
        Some(key) => index.keys.has(key),
    }
}
