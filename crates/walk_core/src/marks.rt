//! What the sets of a walk have, as rows of bits.
ghost use Rattle.std.specs.Prelude.{◌≡◌, ℕ, ◌<◌, [], List, length, All, IfOk, IfSome};
ghost use Rattle.lts_base.specs.System.{System};
ghost use Rattle.state_sets.specs.Rows.{IsRowOf};
ghost use Rattle.walk_core.specs.Marked.{AreMade, AreMarksOf};
ghost use Rattle.walk_core.specs.Walked.{set_at};

use lts_base::{Lts, Memory};
use state_sets::{Rows, mark_set, masks_of, row_width};
use std::alloc::Global;
use std::marker::Model;

/// The rows of the first sets. A set whose row found no memory has none, nor have those after it.
#[derive(Drop)]
pub(crate) struct Marks {
    // what each state has
    masks: Rows,
    rows: Rows,
    // the row that is made next
    row: Vec<u64>,
}

impl Model for Marks {
    ghost use Rattle.walk_core.specs.Marked.{Marked};

    ghost Value = { Marked };

    ghost view = { λ a. record { masks = a.masks; rows = a.rows; row = a.row.items } };
}

impl Marks {
    /// No row.
    pub(crate) fn new(alloc: Global, lts: &Lts) -> Result<Marks, Memory>
        ensures made { IfOk result (AreMade lts.now) }
        ensures none { IfOk result (λ m. m.rows.rows ≡ []) }
    {
        let masks = masks_of(alloc, lts)?;
        let width = row_width(lts);
        let row = vec![in alloc; 0; width]?;
        Ok(Marks {
            masks,
            rows: Rows::new(alloc, width),
            row,
        })
    }

    /// The row of the set with this number, if it has one.
    pub(crate) fn row(&self, place: usize) -> Option<&[u64]>
        ensures { IfSome result (λ r. (s : System) (sets : List (List ℕ)) → AreMarksOf s sets self.now → IsRowOf s (set_at sets place) r.now) }
    {
        if place >= self.rows.len() {
            return None;
        }
        Some(self.rows.row(place))
    }

    /// Keeps the row of the set with this number, if it is the next one.
    pub(crate) fn keep(&mut self, lts: &Lts, set: &[u32], place: usize)
        requires made { AreMade lts.now self.old }
        requires set { All (λ (q : ℕ). q < lts.now.states) set.now }
        ensures made { AreMade lts.now self.new }
        ensures rows { (sets : List (List ℕ)) → AreMarksOf lts.now sets self.old → place < length sets → set_at sets place ≡ set.now → AreMarksOf lts.now sets self.new }
    {
        if place != self.rows.len() {
            return;
        }
        mark_set(lts, &self.masks, set, &mut self.row);
        let _ = self.rows.push(&self.row);
    }
}
