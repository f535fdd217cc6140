//! The items of an alphabet by their places.
ghost use Rattle.std.specs.Prelude.{◌≡◌, ◌+◌, ◌≤◌};
ghost use Rattle.lts_base.specs.System.{System, IsItemOf};
ghost use Rattle.lts_base.specs.Order.{place};

use lts_base::Item;

/// The item with this place: the inputs, the outputs, `delta`.
pub fn item_at(inputs: u32, outputs: u32, number: u32) -> Item
    requires few { inputs + outputs ≤ 1024 }
    requires number { number ≤ inputs + outputs }
    ensures place { place (inputs + outputs) result ≡ number }
    ensures item { (s : System) → s.inputs ≡ inputs → s.outputs ≡ outputs → IsItemOf s result }
{
    if number < inputs {
        return Item::Input(number);
    }
    if number < inputs + outputs {
        return Item::Output(number);
    }
    Item::Delta
}
