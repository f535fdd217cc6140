//! Equality, order and hash of sets of states: those of their lists of states.
ghost use Rattle.std.specs.Prelude.{◌≡◌, Some, refl, bytes_eq};
ghost use Rattle.std.proofs.Common.{rules};
ghost use Rattle.std.specs.Ordering.{nat_cmp};
ghost use Rattle.std.specs.Hash as fed;
ghost use Rattle.std.specs.Cmp.{partial_equiv_from_equiv};
ghost use Rattle.std.specs.Cmp.Lexicographic.{slice_cmp, nat_list_eq_equiv, nat_list_cmp_total, texts_ties, texts_po};
ghost use Rattle.std.specs.Cmp.Rules.{hashing};

use crate::set::StateSet;
use std::cmp::Ordering;
use std::hash::{Hash, Hasher};

impl PartialEq for StateSet {
    ghost eq = { bytes_eq };

    ghost laws = { partial_equiv_from_equiv nat_list_eq_equiv };

    fn eq(&self, other: &StateSet) -> bool {
        self.states() == other.states()
    }
}

impl Eq for StateSet {
    ghost laws = { nat_list_eq_equiv };
}

impl PartialOrd for StateSet {
    ghost partial_cmp = { λ a b. Some (slice_cmp nat_cmp a b) };

    ghost laws = { texts_po };

    fn partial_cmp(&self, other: &StateSet) -> Option<Ordering> {
        Some(self.cmp(other))
    }
}

impl Ord for StateSet {
    ghost cmp = { slice_cmp nat_cmp };

    ghost total = { nat_list_cmp_total };

    ghost matches_partial_cmp = { λ a b. refl };

    ghost matches_eq = { texts_ties };

    fn cmp(&self, other: &StateSet) -> Ordering {
        self.states().cmp(&other.states())
    }
}

impl Hash for StateSet {
    ghost hash_input = { fed.slice fed.u32 };

    ghost respects_eq = { Prim.search (hashing, rules) };

    fn hash<H: Hasher>(&self, state: &mut H) {
        self.states().hash(state);
    }
}
