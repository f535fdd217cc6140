//! Rows of words in one list, all of the same length.
ghost use Rattle.std.specs.Prelude.{◌≡◌, ◌<◌, [], ◌∷◌, ◌++◌, length, OnOk, OnErr, slice_index_or as get_or};

use lts_base::Memory;
use std::alloc::Global;
use std::marker::Model;

/// Rows of words, all as long.
#[derive(Drop, Debug)]
pub struct Rows {
    width: usize,
    count: usize,
    words: Vec<u64>,
}

impl Model for Rows {
    ghost use Rattle.state_sets.specs.Rows.{Table, rows_of, IsLaidOut};

    ghost Value = { Table };

    ghost view = { λ a. record { width = a.width; rows = rows_of a.width a.count a.words.items } };

    ghost invariant = { λ a. IsLaidOut a.width a.count a.words.items };
}

impl Rows {
    /// No rows, where a row is to have this many words.
    pub fn new(alloc: Global, width: usize) -> Rows
        requires { 0 < width }
        ensures width { result.width ≡ width }
        ensures rows { result.rows ≡ [] }
    {
        Rows {
            width,
            count: 0,
            words: Vec::new(alloc),
        }
    }

    /// How many rows there are.
    pub fn len(&self) -> usize
        ensures { result ≡ length self.now.rows }
    {
        self.count
    }

    /// The row with this number, from 0.
    pub fn row(&self, number: usize) -> &[u64]
        requires { number < length self.now.rows }
        ensures { result.now ≡ get_or self.now.rows number [] }
    {
        let from = number * self.width;
        &self.words[from..from + self.width]
    }

    /// Adds a row at the end. Where memory runs out the rows are as before.
    pub fn push(&mut self, row: &[u64]) -> Result<(), Memory>
        requires { length row.now ≡ self.old.width }
        ensures width { self.new.width ≡ self.old.width }
        ensures rows { OnOk result (self.new.rows ≡ self.old.rows ++ row.now ∷ []) }
        ensures same { OnErr result (self.new ≡ self.old) }
    {
        self.words.extend_from_slice(row)?;
        self.count += 1;
        Ok(())
    }
}
