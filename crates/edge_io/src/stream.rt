//! Streams of bytes, as their readers and writers see them.
ghost use Rattle.std.specs.Prelude.{◌≡◌, ◌<◌, ◌≤◌, [], ◌∷◌, length, take, IsTrue, IfOk, OnErr};
ghost use Rattle.edge_io.specs.Outside.{Gains};
ghost use Rattle.edge_io.specs.Streams.{ToldStream, KeepsStream, StreamFails, StreamIdles, IsGot, answer_of, is_tick};

use crate::failed::Failed;

/// What a read met.
#[derive(Clone, Copy, Debug, PartialEq, Eq)]
pub enum Got {
    /// So many bytes, which stand at the front of the buffer.
    Bytes(usize),
    /// Nothing, for a tick.
    Idle,
    /// The other side has ended.
    End,
}

/// A stream of bytes in both directions.
///
/// `told` has the answers of its reads with their bytes and all that was written, where the object
/// tells them, and its counts; a count at its last value counts as risen. No call takes memory.
pub trait Stream {
    ghost told: { Self → ToldStream };

    /// Reads bytes to the front of `buf`, and waits a tick at most.
    fn read(&mut self, buf: &mut [u8]) -> Result<Got, Failed>
        requires room { 0 < length buf.old }
        ensures got { IfOk result (λ got. IsGot got buf.new) }
        ensures answers { IfOk result (λ got. Gains (told self.old).answers (told self.new).answers (answer_of got buf.new ∷ [])) }
        ensures idle { IfOk result (λ got. IsTrue (is_tick got) → StreamIdles (told self.old) (told self.new)) }
        ensures kept { OnErr result ((told self.new).answers ≡ (told self.old).answers) }
        ensures written { (told self.new).written ≡ (told self.old).written }
        ensures failed { OnErr result (StreamFails (told self.old) (told self.new)) }
        ensures later { KeepsStream (told self.old) (told self.new) };

    /// Takes the first bytes of `piece` and answers how many.
    fn write(&mut self, piece: &[u8]) -> Result<usize, Failed>
        ensures count { IfOk result (λ n. n ≤ length piece.now) }
        ensures some { IfOk result (λ n. 0 < length piece.now → 0 < n) }
        ensures bytes { IfOk result (λ n. Gains (told self.old).written (told self.new).written (take n piece.now)) }
        ensures kept { OnErr result ((told self.new).written ≡ (told self.old).written) }
        ensures answers { (told self.new).answers ≡ (told self.old).answers }
        ensures failed { OnErr result (StreamFails (told self.old) (told self.new)) }
        ensures later { KeepsStream (told self.old) (told self.new) };
}
