//! The files of the system, and a sink over any of its writers.
ghost use Rattle.std.specs.Prelude.{◌≡◌, None};
ghost use Rattle.std.specs.Io.{ReadsAtMost};

use crate::failed::Failed;
use crate::files::Files;
use crate::sink::Sink;
use std::fs::File;
use std::io::{Read, Seek, SeekFrom, Write};
use std::{io, rt};

/// The room for the name of the open file, in bytes; the system opens no longer path.
const NAME_ROOM: usize = 4096;

/// The files of the system. No clause says what they hold.
///
/// The file that was read last stays open, so that the pieces of a load are those of one file, and
/// a pipe can be loaded. A read at place 0 opens the file anew.
#[derive(Drop)]
pub struct HostFiles<'a, R: rt::Files> {
    rt: &'a R,
    opened: Option<Opened<R::File>>,
    name: [u8; NAME_ROOM],
    faults: u64,
}

/// An open file.
#[derive(Drop)]
struct Opened<F: Drop> {
    file: F,
    /// The length of its name.
    named: usize,
    /// The place after the last byte that was read.
    next: u64,
}

impl<'a, R: rt::Files> HostFiles<'a, R> {
    /// Names are paths of the system, of at most 4,096 bytes.
    pub fn new(rt: &'a R) -> HostFiles<'a, R>
        ensures told { ⟦<HostFiles<'a, R> as Files>⟧.told result ≡ record { content = λ _. None; faults = λ _. 0 } }
    {
        HostFiles {
            rt,
            opened: None,
            name: [0; NAME_ROOM],
            faults: 0,
        }
    }

    // Whether this file is open.
    fn is_open(&self, name: &str) -> bool {
        match &self.opened {
            Some(opened) => self.name.get(..opened.named) == Some(name.as_bytes()),
            None => false,
        }
    }

    // Opens the file at its first byte.
    fn open(&mut self, name: &str) -> io::Result<()>
        ensures faults { self.new.faults ≡ self.old.faults }
    {
        self.opened = None;
        let bytes = name.as_bytes();
        let Some(room) = self.name.get_mut(..bytes.len()) else {
            return Err(io::Error::from(io::ErrorKind::InvalidInput));
        };
        room.copy_from_slice(bytes);
        self.opened = Some(Opened {
            file: File::open(self.rt, name)?,
            named: bytes.len(),
            next: 0,
        });
        Ok(())
    }

    fn read_piece(&mut self, name: &str, at: u64, buf: &mut [u8]) -> io::Result<usize>
        ensures count { ReadsAtMost result buf.new }
        ensures faults { self.new.faults ≡ self.old.faults }
    {
        if at == 0 || !self.is_open(name) {
            self.open(name)?;
        }
        match &mut self.opened {
            Some(opened) => opened.read(at, buf),
            None => Err(io::Error::from(io::ErrorKind::NotFound)),
        }
    }
}

impl<F: Read + Seek + Drop> Opened<F> {
    // Seeks only where the place isn't the next one, so that a pipe is read too.
    fn read(&mut self, at: u64, buf: &mut [u8]) -> io::Result<usize>
        ensures { ReadsAtMost result buf.new }
    {
        if self.next != at {
            self.file.seek(SeekFrom::Start(at))?;
        }
        let count = self.file.read(buf)?;
        self.next = at.saturating_add(count as u64);
        Ok(count)
    }
}

impl<'a, R: rt::Files> Files for HostFiles<'a, R> {
    ghost told = { λ f. record { content = λ _. None; faults = λ _. f.faults } };

    fn read_at(&mut self, name: &str, at: u64, buf: &mut [u8]) -> Result<usize, Failed> {
        if let Ok(count) = self.read_piece(name, at, buf) {
            return Ok(count);
        }
        self.opened = None;
        self.faults = self.faults.saturating_add(1);
        Err(Failed)
    }
}

/// A sink over a writer, without a buffer of its own.
#[derive(Drop)]
pub struct HostSink<W: Write> {
    to: W,
    faults: u64,
}

impl<W: Write> HostSink<W> {
    /// Standard output is `io::writer(&rt)`.
    pub fn new(to: W) -> HostSink<W>
        ensures told { ⟦<HostSink<W> as Sink>⟧.told result ≡ record { written = None; faults = 0 } }
    {
        HostSink { to, faults: 0 }
    }
}

impl<W: Write> Sink for HostSink<W> {
    ghost told = { λ s. record { written = None; faults = s.faults } };

    fn write(&mut self, piece: &[u8]) -> Result<usize, Failed> {
        if let Ok(count) = self.to.write(piece)
            && (count > 0 || piece.is_empty())
        {
            return Ok(count);
        }
        self.faults = self.faults.saturating_add(1);
        Err(Failed)
    }
}
