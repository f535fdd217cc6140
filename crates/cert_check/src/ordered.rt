//! Lists of states in order, so that a list is found by halves. They stay where they are: what is
//! sorted are their places.
ghost use Rattle.std.specs.Prelude.{◌≡◌, ℕ, [], All, Contains, IfOk, MatchOption, slice_index_or as get_or};
ghost use Rattle.std.specs.Ordering.{nat_cmp};
ghost use Rattle.std.specs.Cmp.Lexicographic.{slice_cmp};
ghost use Rattle.lts_base.specs.Alphabet.{AreRising, text_at};
ghost use Rattle.cert_check.specs.Index.{IsPlace, AreSorted, listed};

use cert_text::PackedLists;
use lts_base::Memory;
use std::cmp::Ordering;
use std::marker::Model;

/// Distinct lists in the order of their states.
#[derive(Drop)]
pub(crate) struct Ordered<'a> {
    lists: &'a PackedLists,
    /// The places of the lists, from 0.
    places: Vec<u32>,
}

impl<'a> Model for Ordered<'a> {
    ghost use Rattle.std.specs.Prelude.{List, ℕ};
    ghost use Rattle.cert_check.specs.Index.{AreSorted, listed};

    ghost Value = { List (List ℕ) };

    ghost view = { λ a. listed a.lists.now a.places.items };

    ghost invariant = { λ a. AreSorted (listed a.lists.now a.places.items) };
}

impl<'a> Ordered<'a> {
    /// The lists at these places. It takes time linear in the lists but for a logarithm.
    pub fn new(lists: &'a PackedLists, places: Vec<u32>) -> Result<Ordered<'a>, Memory>
        ensures all { IfOk result (λ o. All (Contains o) (listed lists.now places.items)) }
        ensures sorted { IfOk result AreSorted }
    {
        let mut once = places;
        // numbers are compared sooner than lists
        drop_repeats(&mut once);
        sort_lists(lists, &mut once);
        // no machine has room for so many lists; a place has 32 bits in a key
        if once.len() > u32::MAX as usize {
            return Err(Memory);
        }
        Ok(Ordered {
            lists,
            places: once,
        })
    }

    /// The place of the list in this order.
    pub fn place_of(&self, list: &[u32]) -> Option<usize>
        ensures place { MatchOption result (¬ Contains self.now list.now) (IsPlace self.now list.now) }
        ensures sorted { AreSorted self.now }
    {
        find(self.lists, &self.places, list)
    }
}

/// Sorts the places, and drops repeats.
fn drop_repeats(places: &mut Vec<u32>)
    ensures { All (Contains places.new.items) places.old.items }
{
    places.sort_unstable();
    places.dedup();
}

/// Sorts the places by their lists, and drops those of repeated lists.
fn sort_lists(lists: &PackedLists, places: &mut Vec<u32>)
    ensures rising { AreRising (listed lists.now places.new.items) }
    ensures all { All (Contains (listed lists.now places.new.items)) (listed lists.now places.old.items) }
{
    places.sort_unstable_by(|a, b| compare(lists, *a, *b));
    places.dedup_by(|a, b| list_at(lists, *a) == list_at(lists, *b));
}

/// Which of the two lists with these numbers comes first.
fn compare(lists: &PackedLists, first: u32, second: u32) -> Ordering
    ensures { result ≡ slice_cmp nat_cmp (text_at lists.now first) (text_at lists.now second) }
{
    list_at(lists, first).cmp(list_at(lists, second))
}

/// The list with this number; the empty one where there is none.
pub(crate) fn list_at(lists: &PackedLists, number: u32) -> &[u32]
    ensures { result.now ≡ get_or lists.now number [] }
{
    lists.get(number as usize)
}

/// The place of the list among places that stand in the order of their lists.
fn find(lists: &PackedLists, places: &[u32], list: &[u32]) -> Option<usize>
    requires { AreRising (listed lists.now places.now) }
    ensures { MatchOption result (¬ Contains (listed lists.now places.now) list.now) (IsPlace (listed lists.now places.now) list.now) }
{
    match places.binary_search_by(|place| list_at(lists, *place).cmp(list)) {
        Ok(place) => Some(place),
        Err(_) => None,
    }
}
