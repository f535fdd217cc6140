//! A chooser that draws.
ghost use Rattle.std.specs.Prelude.{◌≡◌, ℕ, List};
ghost use Rattle.session_core.specs.Answered.{drawn};

use lts_base::Item;
use rand_core::utils::NextWord;
use walk_core::{Choice, Choose};

/// A chooser that draws a word for each choice: with n offers its remainder by n + 1 is 0 to
/// observe, or k for the k-th offer.
#[derive(Drop)]
pub struct Seeded<R> {
    rng: R,
}

impl<R> Seeded<R> {
    /// Draws from this generator.
    pub fn new(rng: R) -> Seeded<R>
        ensures { result ≡ record { rng = rng } }
    {
        Seeded { rng }
    }
}

impl<R: NextWord<u32>> Choose for Seeded<R> {
    ghost answer = { λ s offers _. let draw = R.step s.rng in (drawn offers draw.0, record { rng = draw.1 }) };

    fn choose(&mut self, offers: &[u32], _done: &[Item]) -> Choice {
        let word = self.rng.next_word();
        pick(offers, word)
    }
}

/// The choice that a drawn word stands for.
fn pick(offers: &[u32], word: u32) -> Choice
    ensures { result ≡ drawn offers.now word }
{
    let draw = u64::from(word) % (offers.len() as u64 + 1);
    if draw == 0 {
        Choice::Observe
    } else {
        Choice::Input(offers[(draw - 1) as usize])
    }
}
