//! The relation of the reached pairs, made once at the end of a search.
ghost use Rattle.std.specs.Prelude.{◌≡◌, ℕ, ◌<◌, ◌≤◌, length, map, take, IfOk};
ghost use Rattle.walk_core.specs.Walked.{Walked};
ghost use Rattle.conf_decide.specs.declared.table.Found.{Found as TheFound};
ghost use Rattle.conf_decide.specs.Table.{nodes_of, IsAbove};

use crate::table::Table;
use lts_base::{Memory, Pairs, Relation, StateList, StateLists};
use std::alloc::Global;
use walk_core::{Node, Walk};

/// One above the greatest node of the pairs, on each side.
fn counts(table: &Table) -> (usize, usize)
    ensures left { IsAbove (λ (f : TheFound). f.left) table.now result.0 }
    ensures right { IsAbove (λ (f : TheFound). f.right) table.now result.1 }
    ensures small { (result.0 ≤ 4294967296) × (result.1 ≤ 4294967296) }
{
    let mut left = 0;
    let mut right = 0;
    'pairs: for number in 0..table.len() {
        let found = table.at(number);
        if left <= found.left as usize {
            left = found.left as usize + 1;
        }
        if right <= found.right as usize {
            right = found.right as usize + 1;
        }
    }
    (left, right)
}

/// The sets of a walk, in its order.
fn lists_of<W: Walk>(alloc: Global, walk: &W, count: usize) -> Result<StateLists, Memory>
    requires count { count ≡ length (W.walked walk.now).sets }
    requires small { count ≤ 4294967296 }
    ensures { IfOk result (λ lists. lists ≡ (W.walked walk.now).sets) }
{
    let mut lists = StateLists::new(alloc);
    'sets: for number in 0..count {
        let states = Vec::from_slice(alloc, walk.states(Node(number as u32)))?;
        lists.push(StateList::from_vec(states))?;
    }
    Ok(lists)
}

/// The nodes of the pairs.
fn pairs_of(alloc: Global, table: &Table) -> Result<Pairs, Memory>
    ensures { IfOk result (λ pairs. pairs ≡ map nodes_of table.now) }
{
    let mut pairs = Pairs::new(alloc);
    'pairs: for number in 0..table.len() {
        let found = table.at(number);
        pairs.push((found.left, found.right))?;
    }
    Ok(pairs)
}

/// The relation whose lists are the walks' sets, and whose pairs are those of the table.
pub fn relation_of<A: Walk, B: Walk>(
    alloc: Global,
    imp: &A,
    spec: &B,
    table: &Table,
) -> Result<Relation, Memory>
    requires left { (n : ℕ) → IsAbove (λ (f : TheFound). f.left) table.now n → n ≡ length (A.walked imp.now).sets }
    requires right { (n : ℕ) → IsAbove (λ (f : TheFound). f.right) table.now n → n ≡ length (B.walked spec.now).sets }
    ensures left { IfOk result (λ relation. relation.left ≡ (A.walked imp.now).sets) }
    ensures right { IfOk result (λ relation. relation.right ≡ (B.walked spec.now).sets) }
    ensures pairs { IfOk result (λ relation. relation.pairs ≡ map nodes_of table.now) }
{
    let (lefts, rights) = counts(table);
    let left = lists_of(alloc, imp, lefts)?;
    let right = lists_of(alloc, spec, rights)?;
    let pairs = pairs_of(alloc, table)?;
    Ok(Relation { left, right, pairs })
}
