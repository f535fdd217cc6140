//! Pieces of a line: words, and what stands after spaces.
ghost use Rattle.std.specs.Prelude.{◌≡◌, ◌↔◌, List, ℕ, ◌∷◌, ◌++◌, ◌<◌, length, IsTrue, IfSome, MatchOption};
ghost use Rattle.cert_text.specs.Numbers.{IsPiece};

use text_scan::cut_at;

/// Whether the line is this text.
pub fn is_text(line: &[u8], text: &[u8]) -> bool
    ensures { IsTrue result ↔ line.now ≡ text.now }
{
    line == text
}

/// What follows the word at the front of the line.
pub fn after_word<'a>(line: &'a [u8], word: &[u8]) -> Option<&'a [u8]>
    ensures { MatchOption result ((text : List ℕ) → line.now ≡ word.now ++ text → ⊥) (λ text. line.now ≡ word.now ++ text.now) }
{
    match line.strip_prefix(word) {
        None => None,
        Some(text) => Some(text),
    }
}

/// The piece after the space at the front, up to the next space, and the rest from there on.
pub fn next_piece(text: &[u8]) -> Option<(&[u8], &[u8])>
    ensures piece { MatchOption result ((rest : List ℕ) → text.now ≡ 32 ∷ rest → ⊥) (λ cut. IsPiece text.now cut.0.now cut.1.now) }
    ensures shorter { IfSome result (λ cut. length cut.1.now < length text.now) }
{
    let [b' ', after @ ..] = text else {
        return None;
    };
    match cut_at(after, b' ') {
        None => Some((after, &[])),
        Some((piece, _)) => Some((piece, &after[piece.len()..])),
    }
}
