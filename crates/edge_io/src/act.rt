//! What passes over a link between a tester and the implementation that it tests.
ghost use Rattle.std.specs.Prelude.{◌≡◌};
ghost use Rattle.edge_io.specs.Links.{is_idle};

use lts_base::{Listed, Text};

/// The most bytes of a line on a link, without its LF; a CR before it counts.
pub const MOST_HEARD_BYTES: usize = 1_024;

/// What a look or a hearing met.
#[derive(Clone, Copy, Debug, PartialEq, Eq)]
pub enum Heard {
    /// A line.
    Line,
    /// Nothing, for a tick.
    Idle,
    /// Nothing for a tick, and a line has begun.
    IdleMid,
    /// More bytes than a line may have.
    TooLong,
    /// The other side has ended.
    End,
}

impl Heard {
    /// Whether nothing came for a tick.
    pub fn is_idle(self) -> bool
        ensures { result ≡ is_idle self }
    {
        match self {
            Heard::Line | Heard::TooLong | Heard::End => false,
            Heard::Idle | Heard::IdleMid => true,
        }
    }
}

/// One act on a link.
#[derive(Debug, Drop)]
pub enum Act {
    /// A look met this, with this text.
    Looked(Heard, Text),
    /// A hearing met this, with this text.
    Listened(Heard, Text),
    /// This text was sent.
    Gave(Text),
}

/// Acts in their order.
pub type Acts = Listed<Act>;
