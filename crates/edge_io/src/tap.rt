//! What takes the bytes of a file while they are read.
ghost use Rattle.std.specs.Prelude.{List, ℕ};
ghost use Rattle.edge_io.specs.Taps.{Takes};

/// What takes the bytes of a file while they are read.
///
/// `took` holds of the bytes that were taken, in order, where the object tells them.
pub trait Tap {
    ghost took: { Self → List ℕ → Type 0 };

    /// Takes these bytes. Takes no memory.
    fn take(&mut self, piece: &[u8])
        ensures { Takes (took self.old) (took self.new) piece.now };
}

/// A tap that keeps and tells nothing.
#[derive(Clone, Copy, Debug, PartialEq, Eq)]
pub struct NoTap;

impl Tap for NoTap {
    ghost took = { λ _ _. ⊥ };

    fn take(&mut self, _piece: &[u8]) {}
}
