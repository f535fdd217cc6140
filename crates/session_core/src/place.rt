//! A walk and the node of what was done.
ghost use Rattle.std.specs.Prelude.{◌≡◌, ℕ, ◌+◌, ◌<◌, ◌↔◌, List, [], ◌∷◌, ◌++◌, length, IsTrue, IfOk, OnErr, MatchResult};
ghost use Rattle.lts_base.specs.declared.item.Item.{Item as TheItem};
ghost use Rattle.lts_base.specs.System.{IsItemOf};
ghost use Rattle.lts_base.specs.After.{ShowsAfter};
ghost use Rattle.lts_base.specs.Path.{Has};
ghost use Rattle.lts_base.specs.Conformance.{IsAllowed};
ghost use Rattle.walk_core.specs.Walked.{Grows, IsAccount};
ghost use Rattle.walk_core.specs.Refused.{RefusesAccount};
ghost use Rattle.session_core.specs.Placed.{IsAt};

use lts_base::{Item, Mode};
use std::sync::ledger::Ledger;
use walk_core::{Node, Steps, Walk, WalkError};

/// Whether the item is allowed after the items of the node.
pub(crate) fn is_allowed<W: Walk>(walk: &W, node: Node, mode: Mode, item: Item) -> bool
    requires item { IsItemOf (W.walked walk.now).system item }
    requires placed { (σ : List TheItem) × IsAt (W.walked walk.now) mode node.0 σ }
    ensures { (σ : List TheItem) → IsAt (W.walked walk.now) mode node.0 σ → IsTrue result ↔ IsAllowed mode (W.walked walk.now).system (σ ++ item ∷ []) }
{
    walk.allows(node, mode, item)
}

/// Whether the item is shown after the items of the node.
pub(crate) fn is_shown<W: Walk>(walk: &W, node: Node, mode: Mode, item: Item) -> bool
    requires item { IsItemOf (W.walked walk.now).system item }
    requires placed { (σ : List TheItem) × IsAt (W.walked walk.now) mode node.0 σ }
    ensures { (σ : List TheItem) → IsAt (W.walked walk.now) mode node.0 σ → IsTrue result ↔ ShowsAfter (W.walked walk.now).system σ item }
{
    walk.shows(node, item)
}

/// Steps by an item that is allowed after the items of the node.
pub(crate) fn step<W: Walk, L: Ledger>(
    walk: &mut W,
    node: Node,
    mode: Mode,
    item: Item,
    steps: &mut Steps<L>,
) -> Result<Node, WalkError>
    requires item { IsItemOf (W.walked walk.old).system item }
    requires placed { (σ : List TheItem) × IsAt (W.walked walk.old) mode node.0 σ × IsAllowed mode (W.walked walk.old).system (σ ++ item ∷ []) }
    ensures ok { (σ : List TheItem) → IsAt (W.walked walk.old) mode node.0 σ → IsAllowed mode (W.walked walk.old).system (σ ++ item ∷ []) → IfOk result (λ n. IsAt (W.walked walk.new) mode n.0 (σ ++ item ∷ [])) }
    ensures kept { (k : ℕ) (σ : List TheItem) → IsAt (W.walked walk.old) mode k σ → IsAt (W.walked walk.new) mode k σ }
    ensures grows { Grows (W.walked walk.old) (W.walked walk.new) }
    ensures same { OnErr result (W.walked walk.new ≡ W.walked walk.old) }
    ensures steps { steps.new ≡ steps.old + 1 }
    ensures account { (traces : List (List TheItem)) (σ : List TheItem) → IsAccount (W.walked walk.old) traces → IsAt (W.walked walk.old) mode node.0 σ → IsAllowed mode (W.walked walk.old).system (σ ++ item ∷ []) → MatchResult result (λ _. IsAccount (W.walked walk.new) (traces ++ (σ ++ item ∷ []) ∷ [])) (λ e. RefusesAccount (W.walked walk.old) (traces ++ (σ ++ item ∷ []) ∷ []) e) }
{
    match walk.step(node, item, steps) {
        Ok(Some(next)) => Ok(next),
        Ok(None) => Err(WalkError::Memory),
        Err(error) => Err(error),
    }
}
