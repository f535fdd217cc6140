//! A hash of texts that no file can aim at.
ghost use Rattle.std.specs.Prelude.{◌≡◌};

use std::hash::{BuildHasher, DefaultHasher, FoldHasher, Hasher};

/// Makes hashers that begin with a digest. Whoever writes a file fixes the digest with it, and
/// can't choose texts for a digest that changes with each choice.
#[derive(Clone, Copy, Drop)]
pub struct Keyed {
    initial: FoldHasher,
}

impl BuildHasher for Keyed {
    type Hasher = FoldHasher;

    ghost build_hasher = { λ k. k.initial };

    fn build_hasher(&self) -> FoldHasher {
        self.initial
    }
}

impl Keyed {
    /// The same hashers for every content, for sets that can't be aimed at.
    pub fn fixed() -> Keyed {
        Keyed {
            initial: FoldHasher::default(),
        }
    }

    /// The hashers of this content.
    pub fn new(content: &[u8]) -> Keyed {
        let mut digest = Digest::new();
        digest.add(content);
        digest.keyed()
    }
}

/// A digest of texts, one after another.
#[derive(Drop)]
pub(crate) struct Digest {
    hasher: DefaultHasher,
}

impl Digest {
    /// The digest of no text.
    pub(crate) fn new() -> Digest {
        Digest {
            hasher: DefaultHasher::new(),
        }
    }

    /// Adds a text.
    pub(crate) fn add(&mut self, text: &[u8]) {
        self.hasher.write_usize(text.len());
        self.hasher.write(text);
    }

    /// The hashers that begin with this digest.
    pub(crate) fn keyed(&self) -> Keyed {
        let mut initial = FoldHasher::default();
        initial.write_u64(self.hasher.finish());
        Keyed { initial }
    }
}
