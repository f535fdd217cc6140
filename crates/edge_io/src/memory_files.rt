//! Files in memory, of which chosen reads fail.
ghost use Rattle.std.specs.Prelude.{◌≡◌, ◌<◌, ◌≤◌, length, IfOk, IfSome, is_err, option_copied};
ghost use Rattle.edge_io.specs.Contents.{content_of};
ghost use Rattle.edge_io.specs.InMemory.{read_fails, after_read};
ghost use Rattle.edge_io.specs.Outside.{GivesAt};

use crate::content::{Contents, NamedText, Numbers};
use crate::failed::Failed;
use crate::files::Files;
use std::marker::Model;

/// Files in memory, of which chosen reads fail.
#[derive(Drop, Debug)]
pub struct MemFiles {
    contents: Contents,
    fail_reads: Numbers,
    reads: u64,
    faults: u64,
}

impl Model for MemFiles {
    ghost use Rattle.edge_io.specs.InMemory.{FilesInMemory};

    ghost Value = { FilesInMemory };

    ghost view = { λ f. record { contents = f.contents; fail_reads = f.fail_reads; reads = f.reads; faults = f.faults } };
}

impl MemFiles {
    /// The reads whose numbers stand in `fail_reads` are to fail; they are counted from 1, over all
    /// names.
    pub fn new(contents: Contents, fail_reads: Numbers) -> MemFiles
        ensures made { result ≡ record { contents = contents; fail_reads = fail_reads; reads = 0; faults = 0 } }
        ensures told { ⟦<MemFiles as Files>⟧.told result ≡ record { content = content_of contents; faults = λ _. 0 } }
    {
        MemFiles {
            contents,
            fail_reads,
            reads: 0,
            faults: 0,
        }
    }

    /// How many reads there were, those that failed among them.
    pub fn reads(&self) -> u64
        ensures { result ≡ self.now.reads }
    {
        self.reads
    }
}

impl Files for MemFiles {
    ghost told = { λ f. record { content = content_of f.contents; faults = λ _. f.faults } };

    fn read_at(&mut self, name: &str, at: u64, buf: &mut [u8]) -> Result<usize, Failed>
        requires room { 0 < length buf.old }
        requires within { IfSome (content_of self.old.contents name.now) (λ c. at ≤ length c) }
        ensures count { IfOk result (λ n. n ≤ length buf.new) }
        ensures bytes { IfOk result (λ n. IfSome (content_of self.old.contents name.now) (λ c. GivesAt c at n buf.new)) }
        ensures later { self.old.faults ≤ self.new.faults }
        ensures fails { is_err result ≡ read_fails self.old name.now }
        ensures after { self.new ≡ after_read self.old name.now }
    {
        self.reads = self.reads.saturating_add(1);
        if self.fail_reads.as_slice().contains(&self.reads) {
            self.faults = self.faults.saturating_add(1);
            return Err(Failed);
        }
        match find(self.contents.as_slice(), name) {
            Some(content) => Ok(give(content, at, buf)),
            None => {
                self.faults = self.faults.saturating_add(1);
                Err(Failed)
            }
        }
    }
}

// The content of the first text with this name.
pub(crate) fn find<'a>(contents: &'a [NamedText], name: &str) -> Option<&'a [u8]>
    ensures { option_copied result ≡ content_of contents.now name.now }
{
    for text in contents {
        if text.name.as_slice() == name.as_bytes() {
            return Some(text.content.as_slice());
        }
    }
    None
}

// Copies to the buffer as many bytes from the place `at` as there are and as it holds.
pub(crate) fn give(content: &[u8], at: u64, buf: &mut [u8]) -> usize
    requires room { 0 < length buf.old }
    requires within { at ≤ length content.now }
    ensures count { result ≤ length buf.new }
    ensures bytes { GivesAt content.now at result buf.new }
{
    let rest = &content[at as usize..];
    let count = rest.len().min(buf.len());
    buf[..count].copy_from_slice(&rest[..count]);
    count
}
