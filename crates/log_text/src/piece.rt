//! Pieces of a line.
ghost use Rattle.std.specs.Prelude.{◌≡◌, ◌↔◌, List, ℕ, ◌++◌, IsTrue, MatchOption};

/// Whether the line is this text.
pub fn is_text(line: &[u8], text: &[u8]) -> bool
    ensures { IsTrue result ↔ line.now ≡ text.now }
{
    line == text
}

/// What follows the word at the front of the line.
pub fn after_word<'a>(line: &'a [u8], word: &[u8]) -> Option<&'a [u8]>
    ensures { MatchOption result ((text : List ℕ) → ¬ (line.now ≡ word.now ++ text)) (λ text. line.now ≡ word.now ++ text.now) }
{
    match line.strip_prefix(word) {
        None => None,
        Some(text) => Some(text),
    }
}
