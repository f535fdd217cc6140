//! What a tester asks for next, as a trait of those who choose.
ghost use Rattle.std.specs.Prelude.{◌≡◌, ℕ, List};
ghost use Rattle.lts_base.specs.declared.item.Item.{Item as TheItem};
ghost use Rattle.walk_core.specs.declared.choice.Choice.{Choice as TheChoice};

use lts_base::Item;

/// What is done next.
#[derive(Clone, Copy, Debug, PartialEq, Eq)]
pub enum Choice {
    /// The input of this number is to be sent.
    Input(u32),
    /// An output is waited for.
    Observe,
}

/// What chooses the next input or observation.
///
/// `answer` gives the choice and the chooser after it, from the chooser, the offers and the items
/// done; so the same chooser, asked the same, answers the same.
pub trait Choose {
    ghost answer: { Self → List ℕ → List TheItem → TheChoice × Self };

    /// The next choice. The offers are the inputs that the specification allows now, in their order;
    /// `done` are the items so far. Takes no memory.
    fn choose(&mut self, offers: &[u32], done: &[Item]) -> Choice
        ensures { (result, self.new) ≡ answer self.old offers.now done.now };
}
