//! The inputs that are offered.
ghost use Rattle.std.specs.Prelude.{◌≡◌, ◌≤◌, List, ◌∷◌, [], ◌++◌, vec_capacity};
ghost use Rattle.lts_base.specs.declared.item.Item.{Item as TheItem};
ghost use Rattle.lts_base.specs.declared.item.Item.TheVariants.{Input};
ghost use Rattle.lts_base.specs.Conformance.{IsAllowed};
ghost use Rattle.session_core.specs.Offers.{AreBelow};
ghost use Rattle.session_core.specs.Placed.{IsAt};

use crate::place::is_allowed;
use lts_base::{Item, Mode};
use walk_core::{Node, Walk};

/// The inputs that are allowed after the items of the node, in order, in the place of those that were there.
pub(crate) fn fill<W: Walk>(offers: &mut Vec<u32>, walk: &W, node: Node, mode: Mode, inputs: u32)
    requires inputs { inputs ≡ (W.walked walk.now).system.inputs }
    requires placed { (σ : List TheItem) × IsAt (W.walked walk.now) mode node.0 σ }
    requires room { inputs ≤ vec_capacity offers.old }
    ensures offers { (σ : List TheItem) → IsAt (W.walked walk.now) mode node.0 σ → AreBelow (λ a. IsAllowed mode (W.walked walk.now).system (σ ++ Input a ∷ [])) inputs offers.new.items }
    ensures capacity { vec_capacity offers.new ≡ vec_capacity offers.old }
{
    offers.clear();
    'inputs: for input in 0..inputs {
        if is_allowed(walk, node, mode, Item::Input(input)) {
            offers.push_reserved(input);
        }
    }
}
