//! A file that is read while its bytes come, so that its content is never kept whole.
ghost use Rattle.std.specs.Prelude.{◌≡◌, ◌+◌, ◌<◌, ◌≤◌, ◌++◌, length, take, IfSome, MatchResult, IfErr, OnOk, None, ℕ, List};
ghost use Rattle.lts_base.specs.declared.limits.TheConstants.{MOST_AUT_BYTES};
ghost use Rattle.edge_io.specs.Outside.{KeepsFiles};
ghost use Rattle.aut_text.specs.Grammar.{IsAutFile};
ghost use Rattle.aut_text.specs.Faults.{RefusesAut};
ghost use Rattle.aut_text.specs.Pieces.{HasRead, HasRoom};
ghost use Rattle.aut_text.specs.Loaded.{LoadsAut, IsPast, IsShownAs, IsRefusedAs, load_fault};

use crate::error::AutError;
use crate::reader::AutReader;
use edge_io::{Failed, Files, Tap};
use lts_base::{Memory, RawLts};
use std::alloc::{AllocError, Global};

/// Why a file has no system.
#[derive(Clone, Copy, Debug)]
pub enum AutLoad {
    /// A read failed.
    Failed,
    /// There is a byte more than were asked for, and these show no fault.
    TooLong,
    /// The fault that was met first; it is never `Memory`.
    Bad(AutError),
    /// Memory ran out.
    Memory,
}

impl From<Failed> for AutLoad {
    ghost use Rattle.std.specs.Prelude.{◌≡◌};
    ghost use Rattle.aut_text.specs.declared.load.AutLoad.TheVariants.{Failed as ReadFailed};

    ghost from_gives = { λ _ e. e ≡ ReadFailed };

    fn from(_error: Failed) -> AutLoad {
        AutLoad::Failed
    }
}

impl From<AllocError> for AutLoad {
    ghost use Rattle.std.specs.Prelude.{◌≡◌};
    ghost use Rattle.aut_text.specs.declared.load.AutLoad.TheVariants.{Memory as OutOfMemory};

    ghost from_gives = { λ _ e. e ≡ OutOfMemory };

    fn from(_error: AllocError) -> AutLoad {
        AutLoad::Memory
    }
}

impl From<Memory> for AutLoad {
    ghost use Rattle.std.specs.Prelude.{◌≡◌};
    ghost use Rattle.aut_text.specs.declared.load.AutLoad.TheVariants.{Memory as OutOfMemory};

    ghost from_gives = { λ _ e. e ≡ OutOfMemory };

    fn from(_error: Memory) -> AutLoad {
        AutLoad::Memory
    }
}

/// How many bytes are asked for at a time.
const PIECE: usize = 65_536;

/// The system of the file `name`, which may have at most `most` bytes.
///
/// Of the content at most one line is kept. The tap takes the bytes as they are read.
pub fn read_aut<F: Files, T: Tap>(
    alloc: Global,
    files: &mut F,
    name: &str,
    most: u64,
    tap: &mut T,
) -> Result<RawLts, AutLoad>
    requires { most ≤ MOST_AUT_BYTES }
    ensures read { LoadsAut (F.told files.old) (F.told files.new) name.now most (T.took tap.old) (T.took tap.new) result }
    ensures keeps { KeepsFiles (F.told files.old) (F.told files.new) }
{
    let mut buffer = vec![in alloc; 0u8; PIECE]?;
    let raw = read_pieces(alloc, files, name, most, tap, &mut buffer)?;
    Ok(raw)
}

/// Reads the file by pieces of the buffer's length.
fn read_pieces<F: Files, T: Tap>(
    alloc: Global,
    files: &mut F,
    name: &str,
    most: u64,
    tap: &mut T,
    buffer: &mut [u8],
) -> Result<RawLts, AutLoad>
    requires most { most ≤ MOST_AUT_BYTES }
    requires buffer { 0 < length buffer.old }
    ensures read { LoadsAut (F.told files.old) (F.told files.new) name.now most (T.took tap.old) (T.took tap.new) result }
    ensures keeps { KeepsFiles (F.told files.old) (F.told files.new) }
{
    let mut reader = AutReader::new(alloc)?;
    let mut done: u64 = 0;
    loop {
        let count = files.read_at(name, done, buffer)?;
        if count == 0 {
            let raw = end(reader)?;
            return Ok(raw);
        }
        if most - done < count as u64 {
            return Err(past_most(reader, &buffer[..(most - done) as usize]));
        }
        let piece = &buffer[..count];
        tap.take(piece);
        feed(&mut reader, piece)?;
        done += count as u64;
    }
}

/// The answer where there is a byte more than were asked for, of which these are the last ones.
fn past_most(reader: AutReader, last: &[u8]) -> AutLoad
    requires { HasRoom reader last.now }
    ensures { (content : List ℕ) → HasRead content reader → IsPast (content ++ last.now) result }
{
    let mut reader = reader;
    match reader.feed(last) {
        Ok(()) => AutLoad::TooLong,
        Err(error) => answered(error),
    }
}

fn feed(reader: &mut AutReader, piece: &[u8]) -> Result<(), AutLoad>
    requires { HasRoom reader.old piece.now }
    ensures ok { (content : List ℕ) → HasRead content reader.old → OnOk result ((reader.new.stopped ≡ None) × HasRead (content ++ piece.now) reader.new) }
    ensures err { (content : List ℕ) → HasRead content reader.old → IfErr result (IsShownAs (content ++ piece.now)) }
{
    match reader.feed(piece) {
        Ok(()) => Ok(()),
        Err(error) => Err(answered(error)),
    }
}

fn end(reader: AutReader) -> Result<RawLts, AutLoad>
    ensures { (content : List ℕ) → HasRead content reader → MatchResult result (IsAutFile content) (IsRefusedAs content) }
{
    match reader.end() {
        Ok(raw) => Ok(raw),
        Err(error) => Err(answered(error)),
    }
}

/// The answer where the reader is stopped by this error.
fn answered(error: AutError) -> AutLoad
    ensures { result ≡ load_fault error }
{
    match error {
        AutError::Memory => AutLoad::Memory,
        other => AutLoad::Bad(other),
    }
}
