//! What a command answers.
use lts_base::Text;

/// An answer, and what is to be printed for it.
#[derive(Drop, Debug)]
pub struct Report<O> {
    /// The answer.
    pub outcome: O,
    /// The whole text.
    pub text: Text,
}
