//! Dialers, which make links to implementations under test and take them back.
ghost use Rattle.std.specs.Prelude.{◌≡◌, ℕ, ◌+◌, ◌⊎◌, IfOk, OnOk, OnErr, IsErrOf};
ghost use Rattle.std.specs.Option.{option_map};
ghost use Rattle.edge_io.specs.declared.dialer.DialError.TheVariants.{Failed as DialFailed};
ghost use Rattle.edge_io.specs.Dials.{ToldDialer, KeepsDialer, DialerFails, DialerIdles, IsNewLink, asked_of, hung_up_of};
ghost use Rattle.edge_io.specs.Outside.{Grew};

use crate::link::Link;

/// Why a dial gave no link.
#[derive(Clone, Copy, Debug, PartialEq, Eq)]
pub enum DialError {
    /// The outside refused it; the dialer's count of faults rose.
    Failed,
    /// Memory ran out.
    Memory,
}

/// What makes links and takes them back.
///
/// `told` has the list of the dials, how many of them gave a link, and the links that were hung up,
/// where the object tells them, and its counts; a count at its last value counts as risen. A list
/// for which room runs out isn't told any more.
pub trait Dialer {
    type Link: Link;

    ghost told: { Self → ToldDialer };

    /// A new link to the implementation at `address`, a tick of which is `tick` milliseconds.
    fn dial(&mut self, address: &str, tick: u32) -> Result<Self::Link, DialError>
        ensures new { IfOk result (λ link. IsNewLink (Self.Link.told link)) }
        ensures asked { Grew (told self.old).asked (told self.new).asked (asked_of address.now tick result) }
        ensures ok { OnOk result ((told self.new).dialled ≡ option_map (λ count. count + 1) (told self.old).dialled) }
        ensures err { OnErr result ((told self.new).dialled ≡ (told self.old).dialled) }
        ensures ended { (told self.new).ended ≡ (told self.old).ended }
        ensures failed { IsErrOf result DialFailed → DialerFails (told self.old) (told self.new) }
        ensures later { KeepsDialer (told self.old) (told self.new) };

    /// Gives a link up.
    fn hang_up(&mut self, link: Self::Link)
        ensures ended { Grew (told self.old).ended (told self.new).ended (hung_up_of (Self.Link.told link)) }
        ensures asked { (told self.new).asked ≡ (told self.old).asked }
        ensures dialled { (told self.new).dialled ≡ (told self.old).dialled }
        ensures faults { ((Self.Link.told link).faults ≡ 0) ⊎ DialerFails (told self.old) (told self.new) }
        ensures idles { ((Self.Link.told link).idles ≡ 0) ⊎ DialerIdles (told self.old) (told self.new) }
        ensures later { KeepsDialer (told self.old) (told self.new) };
}
