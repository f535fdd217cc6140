//! Doors, at which streams come in.
ghost use Rattle.std.specs.Prelude.{◌≡◌, ◌+◌, ◌⊎◌, true, IfOk, OnOk, OnErr};
ghost use Rattle.std.specs.Option.{option_map};
ghost use Rattle.edge_io.specs.Doors.{ToldDoor, KeepsDoor, DoorRefuses, DoorFails, DoorIdles, IsNewStream, closed_of};
ghost use Rattle.edge_io.specs.Outside.{Grew};

use crate::failed::Failed;
use crate::stream::Stream;

/// What listens at an address, and gives a stream for each tester that comes.
///
/// `told` says whether it listens, and has the addresses of the binds, how many accepts gave a
/// stream, and the streams that were closed, where the object tells them, and its counts; a count at
/// its last value counts as risen. A list for which room runs out isn't told any more.
pub trait Door {
    type Stream: Stream;

    ghost told: { Self → ToldDoor };

    /// Listens at an address.
    fn bind(&mut self, address: &str) -> Result<(), Failed>
        ensures listens { OnOk result ((told self.new).listens ≡ true) }
        ensures unbound { OnErr result ((told self.new).listens ≡ (told self.old).listens) }
        ensures asked { Grew (told self.old).asked (told self.new).asked address.now }
        ensures accepted { (told self.new).accepted ≡ (told self.old).accepted }
        ensures closed { (told self.new).closed ≡ (told self.old).closed }
        ensures failed { OnErr result (DoorRefuses (told self.old) (told self.new)) }
        ensures later { KeepsDoor (told self.old) (told self.new) };

    /// Waits for a stream, a tick of which is `tick` milliseconds.
    fn accept(&mut self, tick: u32) -> Result<Self::Stream, Failed>
        requires { (told self.old).listens ≡ true }
        ensures listens { (told self.new).listens ≡ (told self.old).listens }
        ensures new { IfOk result (λ stream. IsNewStream (Self.Stream.told stream)) }
        ensures asked { (told self.new).asked ≡ (told self.old).asked }
        ensures ok { OnOk result ((told self.new).accepted ≡ option_map (λ count. count + 1) (told self.old).accepted) }
        ensures err { OnErr result ((told self.new).accepted ≡ (told self.old).accepted) }
        ensures closed { (told self.new).closed ≡ (told self.old).closed }
        ensures failed { OnErr result (DoorRefuses (told self.old) (told self.new)) }
        ensures later { KeepsDoor (told self.old) (told self.new) };

    /// Gives a stream up.
    fn close(&mut self, stream: Self::Stream)
        ensures listens { (told self.new).listens ≡ (told self.old).listens }
        ensures asked { (told self.new).asked ≡ (told self.old).asked }
        ensures accepted { (told self.new).accepted ≡ (told self.old).accepted }
        ensures closed { Grew (told self.old).closed (told self.new).closed (closed_of (Self.Stream.told stream)) }
        ensures refused { (told self.new).refused ≡ (told self.old).refused }
        ensures faults { ((Self.Stream.told stream).faults ≡ 0) ⊎ DoorFails (told self.old) (told self.new) }
        ensures idles { ((Self.Stream.told stream).idles ≡ 0) ⊎ DoorIdles (told self.old) (told self.new) }
        ensures later { KeepsDoor (told self.old) (told self.new) };
}
