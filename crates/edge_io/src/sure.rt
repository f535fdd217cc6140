//! Files and a sink that never fail.
ghost use Rattle.std.specs.Prelude.{◌≡◌, length, None, Ok};
ghost use Rattle.edge_io.specs.InMemory.{sure_told};

use crate::content::Contents;
use crate::failed::Failed;
use crate::files::Files;
use crate::memory_files::{find, give};
use crate::sink::Sink;

/// Files in memory whose reads never fail; every other name is there and empty.
#[derive(Drop, Debug)]
pub struct SureFiles {
    contents: Contents,
}

impl SureFiles {
    /// Of two equal names the first counts.
    pub fn new(contents: Contents) -> SureFiles
        ensures told { ⟦<SureFiles as Files>⟧.told result ≡ sure_told contents }
    {
        SureFiles { contents }
    }
}

impl Files for SureFiles {
    ghost told = { λ f. sure_told f.contents };

    fn read_at(&mut self, name: &str, at: u64, buf: &mut [u8]) -> Result<usize, Failed> {
        match find(self.contents.as_slice(), name) {
            Some(content) => Ok(give(content, at, buf)),
            None => Ok(0),
        }
    }
}

/// A sink that takes every piece whole and keeps nothing of it.
#[derive(Drop, Debug)]
pub struct SureSink {}

impl SureSink {
    /// A sink that tells nothing of what is written.
    pub fn new() -> SureSink
        ensures told { ⟦<SureSink as Sink>⟧.told result ≡ record { written = None; faults = 0 } }
    {
        SureSink {}
    }
}

impl Sink for SureSink {
    ghost told = { λ _. record { written = None; faults = 0 } };

    fn write(&mut self, piece: &[u8]) -> Result<usize, Failed>
        ensures whole { result ≡ Ok (length piece.now) }
    {
        Ok(piece.len())
    }
}
