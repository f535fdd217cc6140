//! A whole file, up to a number of bytes.
ghost use Rattle.std.specs.Prelude.{◌≡◌, ◌<◌, ◌≤◌, length, IfSome, IfOk, IsErrOf};
ghost use Rattle.edge_io.specs.declared.load.LoadError.TheVariants.{Failed, Memory};
ghost use Rattle.edge_io.specs.Outside.{KeepsFiles, FailsAt};

use crate::failed::Failed;
use crate::files::Files;
use lts_base::Text;
use std::alloc::{AllocError, Global};

/// Why a file wasn't loaded.
#[derive(Clone, Copy, Debug, PartialEq, Eq)]
pub enum LoadError {
    /// A read failed.
    Failed,
    /// There are more bytes than were asked for.
    TooLong,
    /// Memory ran out.
    Memory,
}

impl From<Failed> for LoadError {
    ghost from_gives = { λ _ error. error ≡ Failed };

    fn from(_error: Failed) -> LoadError {
        LoadError::Failed
    }
}

impl From<AllocError> for LoadError {
    ghost from_gives = { λ _ error. error ≡ Memory };

    fn from(_error: AllocError) -> LoadError {
        LoadError::Memory
    }
}

/// How many bytes are asked for at a time.
const PIECE: usize = 65_536;

/// Loads the file `name`, which may have at most `most` bytes.
pub fn load_all<F: Files>(
    alloc: Global,
    files: &mut F,
    name: &str,
    most: u64,
) -> Result<Text, LoadError>
    ensures whole { IfOk result (λ text. IfSome ((F.told files.old).content name.now) (λ c. text ≡ c)) }
    ensures short { IfOk result (λ text. length text ≤ most) }
    ensures long { IsErrOf result LoadError.TooLong → IfSome ((F.told files.old).content name.now) (λ c. most < length c) }
    ensures failed { IsErrOf result LoadError.Failed → FailsAt (F.told files.old) (F.told files.new) name.now }
    ensures keeps { KeepsFiles (F.told files.old) (F.told files.new) }
{
    let mut piece = vec![in alloc; 0u8; PIECE]?;
    let content = join_pieces(alloc, files, name, most, &mut piece)?;
    Ok(Text::from_vec(content))
}

// Reads the file by pieces of the buffer's length, from its first byte to its end.
fn join_pieces<F: Files>(
    alloc: Global,
    files: &mut F,
    name: &str,
    most: u64,
    piece: &mut [u8],
) -> Result<Vec<u8>, LoadError>
    requires { 0 < length piece.old }
    ensures whole { IfOk result (λ text. IfSome ((F.told files.old).content name.now) (λ c. text.items ≡ c)) }
    ensures short { IfOk result (λ text. length text.items ≤ most) }
    ensures long { IsErrOf result LoadError.TooLong → IfSome ((F.told files.old).content name.now) (λ c. most < length c) }
    ensures failed { IsErrOf result LoadError.Failed → FailsAt (F.told files.old) (F.told files.new) name.now }
    ensures keeps { KeepsFiles (F.told files.old) (F.told files.new) }
{
    let mut content = Vec::new(alloc);
    loop {
        let count = files.read_at(name, content.len() as u64, piece)?;
        if count == 0 {
            return Ok(content);
        }
        if most - (content.len() as u64) < count as u64 {
            return Err(LoadError::TooLong);
        }
        content.extend_from_slice(&piece[..count])?;
    }
}
