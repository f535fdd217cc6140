//! Sinks, as their writers see them.
ghost use Rattle.std.specs.Prelude.{◌≡◌, ◌<◌, ◌≤◌, length, take, IfOk, OnErr};
ghost use Rattle.edge_io.specs.Outside.{ToldSink, KeepsSink, SinkFails, AppendsTo};

use crate::failed::Failed;

/// What takes bytes, a piece at a time.
///
/// `told` has all that was taken, where the object tells it, and its faults; a count of faults at
/// its last value counts as risen.
pub trait Sink {
    ghost told: { Self → ToldSink };

    /// Takes the first bytes of `piece` and answers how many. Takes no memory.
    fn write(&mut self, piece: &[u8]) -> Result<usize, Failed>
        ensures count { IfOk result (λ n. n ≤ length piece.now) }
        ensures some { IfOk result (λ n. 0 < length piece.now → 0 < n) }
        ensures bytes { IfOk result (λ n. AppendsTo (told self.old) (told self.new) (take n piece.now)) }
        ensures kept { OnErr result ((told self.new).written ≡ (told self.old).written) }
        ensures keeps { KeepsSink (told self.old) (told self.new) }
        ensures failed { OnErr result (SinkFails (told self.old) (told self.new)) };
}
