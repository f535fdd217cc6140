//! The digest of a file, made while the file is read.
ghost use Rattle.std.specs.Prelude.{◌≡◌, ℕ, List, []};
ghost use Rattle.sha2.specs.Hashers.{Holds256};
ghost use Rattle.sha2.specs.Sha256.{sha256};
ghost use Rattle.log_text.specs.Logs.{IsDigest};

use edge_io::Tap;
use log_text::{Digest, digest_from};
use sha2::{Digest as Hasher, Sha256};

/// Makes the digest of the bytes that it takes.
#[derive(Drop)]
pub(crate) struct DigestTap {
    hasher: Sha256,
}

impl Tap for DigestTap {
    ghost took = { λ tap bytes. Holds256 tap.hasher bytes };

    fn take(&mut self, piece: &[u8]) {
        self.hasher.update(piece);
    }
}

impl DigestTap {
    /// No byte was taken.
    pub fn new() -> DigestTap
        ensures { Holds256 result.hasher [] }
    {
        DigestTap {
            hasher: Sha256::new(),
        }
    }

    /// The digest of the bytes that were taken.
    pub fn digest(self) -> Digest
        ensures { (m : List ℕ) → Holds256 self.hasher m → (result.0 ≡ sha256 m) × IsDigest result }
    {
        digest_from(self.hasher.finalize())
    }
}
