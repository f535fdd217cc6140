//! Inputs that a state can't take.
ghost use Rattle.std.specs.Prelude.{◌≡◌, ◌↔◌, ℕ, ◌<◌, None, Bool, true, false, length, OnOk, IfOk, MatchOption, slice_index_or as get_or};
ghost use Rattle.lts_base.specs.System.{Takes};
ghost use Rattle.lts_base.specs.Shape.{IsInputEnabled};
ghost use Rattle.lts_base.specs.Finds.{Adds};
ghost use Rattle.lts_shape.specs.Groups.{AreGroups};
ghost use Rattle.lts_shape.specs.Marks.{AreMarksOf};
ghost use Rattle.lts_shape.specs.Inputs.{EndsSome, CanTake, AllCanTake, IsLeastLacking, IsFirstMissing, AreTakers};
ghost use Rattle.lts_shape.specs.Choice.{IsFirstUnmarked, with_lacking};

use crate::groups::{Groups, add_sources, add_takers, groups_of};
use crate::reached::{marks_of, reached};
use lts_base::{Act, Lts, Memory};
use state_sets::Search;
use std::alloc::Global;

/// Looks for the least state that ends some trace and lacks an input, and for the least such
/// input. A state lacks an input when no moves with Tau, not even none, lead from it to a state
/// that has a move with the input. It takes, for each input, time linear in the states and moves.
pub fn missing_input(alloc: Global, lts: &Lts) -> Result<Option<(u32, u32)>, Memory>
    ensures found { IfOk result (λ found. MatchOption found (IsInputEnabled lts.now) (λ pair. IsFirstMissing lts.now lts.now.inputs pair.0 pair.1)) }
    ensures exact { IfOk result (λ found. (found ≡ None) ↔ IsInputEnabled lts.now) }
{
    let states = lts.states();
    let inputs = lts.inputs();
    let reached = reached(alloc, lts)?;
    let groups = groups_of(alloc, lts)?;
    let mut search = Search::new(alloc, states)?;
    let mut first = None;
    'inputs: for input in 0..inputs {
        takers(lts, &groups, &mut search, input)?;
        let able = marks_of(alloc, &search, states)?;
        let lacking = first_unmarked(&reached, &able, states);
        first = earlier(first, lacking, input);
    }
    Ok(first)
}

/// The first state that is marked here and not there.
fn first_unmarked(here: &[bool], there: &[bool], states: u32) -> Option<u32>
    requires here { length here.now ≡ states }
    requires there { length there.now ≡ states }
    ensures { MatchOption result ((q : ℕ) → q < states → get_or here.now q false ≡ true → get_or there.now q false ≡ true) (IsFirstUnmarked here.now there.now) }
{
    'states: for state in 0..states {
        if here[state as usize] && !there[state as usize] {
            return Some(state);
        }
    }
    None
}

/// What was found first, or the state with this input where it is less.
fn earlier(first: Option<(u32, u32)>, lacking: Option<u32>, input: u32) -> Option<(u32, u32)>
    ensures { result ≡ with_lacking first lacking input }
{
    let Some(state) = lacking else {
        return first;
    };
    match first {
        None => Some((state, input)),
        Some((least, label)) => {
            if state < least {
                return Some((state, input));
            }
            Some((least, label))
        }
    }
}

/// Finds the states that can take the input. What the search held before is forgotten.
pub(crate) fn takers(
    lts: &Lts,
    groups: &Groups,
    search: &mut Search,
    input: u32,
) -> Result<(), Memory>
    requires groups { AreGroups lts.now (length lts.now.moves) groups.now.last.items groups.now.before.items }
    requires states { search.old.states ≡ lts.now.states }
    requires input { input < lts.now.inputs }
    ensures states { search.new.states ≡ search.old.states }
    ensures takers { OnOk result (AreTakers lts.now input search.new.found) }
{
    search.clear();
    add_takers(lts, groups, search, input)?;
    let mut at = 0;
    'finds: while at < search.len() {
        let state = search.at(at);
        add_sources(lts, groups, search, state)?;
        at += 1;
    }
    Ok(())
}
