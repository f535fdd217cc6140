//! The output that a text is.
ghost use Rattle.std.specs.Prelude.{◌≡◌, ℕ, ◌<◌, ◌≤◌, List, length, MatchOption};
ghost use Rattle.lts_base.specs.Alphabet.{IsAlphabet, text_at};

use lts_base::Labels;

/// The number of the output with this text, None exactly where it is that of no output.
pub(crate) fn output_of(labels: &Labels, text: &[u8]) -> Option<u32>
    ensures output { MatchOption result ((k : ℕ) → labels.now.inputs ≤ k → k < length labels.now.texts → text_at labels.now.texts k ≡ text.now → ⊥) (λ k. (labels.now.inputs ≤ k) × (k < length labels.now.texts) × (text_at labels.now.texts k ≡ text.now)) }
    ensures alphabet { IsAlphabet labels.now }
{
    let inputs = labels.inputs();
    match labels.find(text) {
        Some(k) => { if k >= inputs { Some(k) } else { None } }
        None => None,
    }
}
