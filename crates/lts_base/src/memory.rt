//! Want of memory, the one refusal that any call that allocates may give.
ghost use Rattle.std.specs.Prelude.{◌≡◌};
ghost use Rattle.lts_base.specs.declared.memory.Memory.{Memory};

use std::alloc::{AllocError, AllocFailed};

/// Memory ran out. After it every argument is as before the call.
#[derive(Clone, Copy, PartialEq, Eq, Debug)]
pub struct Memory;

impl From<AllocError> for Memory {
    fn from(_error: AllocError) -> Memory {
        Memory
    }
}

impl<T: Drop> From<AllocFailed<T>> for Memory {
    fn from(_error: AllocFailed<T>) -> Memory {
        Memory
    }
}
