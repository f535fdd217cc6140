//! Files by name, as their readers see them.
ghost use Rattle.std.specs.Prelude.{◌<◌, ◌≤◌, length, IfSome, IfOk, OnErr};
ghost use Rattle.edge_io.specs.Outside.{ToldFiles, KeepsFiles, FailsAt, GivesAt};

use crate::failed::Failed;

/// Files that are read by name, a piece at a time.
///
/// `told` has what a name holds, where the object tells it, and the faults of each name; a count
/// of faults at its last value counts as risen.
pub trait Files {
    ghost told: { Self → ToldFiles };

    /// Reads bytes from the place `at`, which counts from 0, to the front of `buf` and answers how
    /// many; 0 is the end. A name that isn't there is a fault. Takes no memory.
    fn read_at(&mut self, name: &str, at: u64, buf: &mut [u8]) -> Result<usize, Failed>
        requires room { 0 < length buf.old }
        requires within { IfSome ((told self.old).content name.now) (λ c. at ≤ length c) }
        ensures count { IfOk result (λ n. n ≤ length buf.new) }
        ensures bytes { IfOk result (λ n. IfSome ((told self.old).content name.now) (λ c. GivesAt c at n buf.new)) }
        ensures keeps { KeepsFiles (told self.old) (told self.new) }
        ensures failed { OnErr result (FailsAt (told self.old) (told self.new) name.now) };
}
