//! Links, as the sessions over them see them.
ghost use Rattle.std.specs.Prelude.{◌≡◌, List, [], ◌∷◌, IsTrue, IfOk, OnOk, OnErr};
ghost use Rattle.edge_io.specs.declared.act.Act.{Act as TheAct};
ghost use Rattle.edge_io.specs.declared.act.Act.TheVariants.{Looked, Listened, Gave};
ghost use Rattle.edge_io.specs.Links.{ToldLink, KeepsLink, LinkFails, LinkIdles, IsSaid, is_idle};
ghost use Rattle.edge_io.specs.Outside.{Gains};

use crate::act::Heard;
use crate::failed::Failed;

/// A link to an implementation under test, which takes and gives lines.
///
/// `state` is what the link holds, as plain data, and `gives` says which acts may lead from which
/// state to which; of the state after a call that failed nothing is said. `told` has the link's acts,
/// where it keeps them, the text of its last answer, and its counts. No call takes memory.
pub trait Link {
    ghost State: { Type 0 };

    ghost state: { Self → State };

    ghost gives: { State → TheAct → State → Type 0 };

    ghost told: { Self → ToldLink };

    /// Looks whether something came, before an input is sent.
    fn look(&mut self) -> Result<Heard, Failed>
        ensures gives { IfOk result (λ heard. gives (state self.old) (Looked heard (told self.new).said) (state self.new)) }
        ensures acts { IfOk result (λ heard. Gains (told self.old).acts (told self.new).acts (Looked heard (told self.new).said ∷ [])) }
        ensures said { IfOk result (λ heard. IsSaid heard (told self.new).said) }
        ensures idle { IfOk result (λ heard. IsTrue (is_idle heard) → LinkIdles (told self.old) (told self.new)) }
        ensures none { OnErr result ((told self.new).said ≡ []) }
        ensures kept { OnErr result ((told self.new).acts ≡ (told self.old).acts) }
        ensures failed { OnErr result (LinkFails (told self.old) (told self.new)) }
        ensures later { KeepsLink (told self.old) (told self.new) };

    /// Waits for an output, for a tick.
    fn hear(&mut self) -> Result<Heard, Failed>
        ensures gives { IfOk result (λ heard. gives (state self.old) (Listened heard (told self.new).said) (state self.new)) }
        ensures acts { IfOk result (λ heard. Gains (told self.old).acts (told self.new).acts (Listened heard (told self.new).said ∷ [])) }
        ensures said { IfOk result (λ heard. IsSaid heard (told self.new).said) }
        ensures idle { IfOk result (λ heard. IsTrue (is_idle heard) → LinkIdles (told self.old) (told self.new)) }
        ensures none { OnErr result ((told self.new).said ≡ []) }
        ensures kept { OnErr result ((told self.new).acts ≡ (told self.old).acts) }
        ensures failed { OnErr result (LinkFails (told self.old) (told self.new)) }
        ensures later { KeepsLink (told self.old) (told self.new) };

    /// The text of the last answer: the line, or the bytes of the unfinished one. It is empty before
    /// the first call, and after an idle tick, a text that was sent and a call that failed.
    fn text(&self) -> &[u8]
        ensures { result.now ≡ (told self.now).said };

    /// Sends a text and the end of its line.
    fn send(&mut self, text: &[u8]) -> Result<(), Failed>
        ensures gives { OnOk result (gives (state self.old) (Gave text.now) (state self.new)) }
        ensures acts { OnOk result (Gains (told self.old).acts (told self.new).acts (Gave text.now ∷ [])) }
        ensures none { (told self.new).said ≡ [] }
        ensures kept { OnErr result ((told self.new).acts ≡ (told self.old).acts) }
        ensures failed { OnErr result (LinkFails (told self.old) (told self.new)) }
        ensures later { KeepsLink (told self.old) (told self.new) };
}
