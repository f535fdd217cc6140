//! A hash of sets that no file can aim at.
ghost use Rattle.std.specs.Prelude.{◌≡◌};

use lts_base::{Act, Lts, Move};
use std::hash::{BuildHasher, DefaultHasher, FoldHasher, Hasher};

/// Makes hashers that begin with a digest of the whole system. Whoever writes a file fixes the
/// digest with it, and can't choose sets for a digest that changes with each choice.
#[derive(Clone, Copy, Drop)]
pub(crate) struct Keyed {
    initial: FoldHasher,
}

impl BuildHasher for Keyed {
    type Hasher = FoldHasher;

    ghost build_hasher = { λ k. k.initial };

    fn build_hasher(&self) -> FoldHasher {
        self.initial
    }
}

impl Keyed {
    /// The hashers of this system.
    pub(crate) fn new(lts: &Lts) -> Keyed {
        let mut digest = DefaultHasher::new();
        digest.write_u32(lts.start());
        for state in 0..lts.states() {
            add_moves(&mut digest, lts.moves_of(state));
        }
        let mut initial = FoldHasher::default();
        initial.write_u64(digest.finish());
        Keyed { initial }
    }
}

/// Adds the moves of a state. A byte of a digest takes as long as a step of some walks, so there are no
/// more than tell the moves apart.
fn add_moves(digest: &mut DefaultHasher, moves: &[Move]) {
    digest.write_u64(moves.len() as u64);
    for m in moves {
        digest.write_u32(word_of(m));
    }
}

/// The action and the target as one number: states and labels are below 2^16.
fn word_of(m: &Move) -> u32 {
    let act = match m.act {
        Act::Tau => u32::MAX,
        Act::Label(label) => label,
    };
    act.wrapping_mul(65_536).wrapping_add(m.to)
}
