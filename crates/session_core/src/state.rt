//! The plain part of a session: what its table speaks of.
ghost use Rattle.std.specs.Prelude.{◌≡◌, ℕ, ◌+◌, ◌<◌, ◌≤◌, ◌^◌, List, [], ◌∷◌, ◌++◌, length, Some, None, IfOk};
ghost use Rattle.std.specs.Option.{option_map};
ghost use Rattle.log_text.specs.declared.limits.TheConstants.{MOST_TEXT_BYTES, MOST_LEFT_BYTES};
ghost use Rattle.edge_io.specs.Links.{IsWithinLine};
ghost use Rattle.session_core.specs.Table.{Sitting, opening};
ghost use Rattle.session_core.specs.Kept.{IsLoggable};
ghost use Rattle.session_core.specs.declared.phase.Phase.TheVariants.{Ask, Look, Send, Hear, Done};
ghost use Rattle.session_core.specs.declared.verdict.Verdict.TheVariants.{Fail, Stalled};

use crate::phase::Phase;
use crate::verdict::Verdict;
use log_text::limits::{MOST_LEFT_BYTES, MOST_TEXT_BYTES};
use lts_base::{Item, Memory};
use std::alloc::Global;
use std::marker::Model;

/// The phase, the items, the two counts and the two texts. All room is taken at the opening.
#[derive(Drop)]
pub(crate) struct State {
    phase: Phase,
    items: Vec<Item>,
    idles: u32,
    mid: u32,
    has_strange: bool,
    strange: Vec<u8>,
    left: Vec<u8>,
    room: u32,
}

impl Model for State {
    ghost use Rattle.std.specs.Prelude.{◌≤◌, Some, None, if◌then◌else◌, vec_capacity};
    ghost use Rattle.log_text.specs.declared.limits.TheConstants.{MOST_TEXT_BYTES, MOST_LEFT_BYTES};
    ghost use Rattle.session_core.specs.Table.{Sitting};
    ghost use Rattle.session_core.specs.Kept.{Kept, IsLoggable};

    ghost Value = { Kept };

    ghost view = { λ s. record { sitting = record { phase = s.phase; items = s.items.items; idles = s.idles; mid = s.mid; strange = if s.has_strange then Some s.strange.items else None; left = s.left.items }; room = s.room } };

    ghost invariant = { λ s. (s.room ≤ vec_capacity s.items) × (MOST_TEXT_BYTES ≤ vec_capacity s.strange) × (MOST_LEFT_BYTES ≤ vec_capacity s.left) × IsLoggable (record { sitting = record { phase = s.phase; items = s.items.items; idles = s.idles; mid = s.mid; strange = if s.has_strange then Some s.strange.items else None; left = s.left.items }; room = s.room }) };
}

impl State {
    /// Nothing done yet, and room for so many items and for both texts.
    pub(crate) fn new(alloc: Global, room: u32) -> Result<State, Memory>
        ensures { IfOk result (λ s. s ≡ record { sitting = opening; room = room }) }
    {
        let items = Vec::with_capacity(alloc, room as usize)?;
        let strange = Vec::with_capacity(alloc, MOST_TEXT_BYTES)?;
        let left = Vec::with_capacity(alloc, MOST_LEFT_BYTES)?;
        Ok(State {
            phase: Phase::Ask,
            items,
            idles: 0,
            mid: 0,
            has_strange: false,
            strange,
            left,
            room,
        })
    }

    /// The phase.
    pub(crate) fn phase(&self) -> Phase
        ensures { result ≡ self.now.sitting.phase }
    {
        self.phase
    }

    /// The items.
    pub(crate) fn items(&self) -> &[Item]
        ensures { result.now ≡ self.now.sitting.items }
    {
        self.items.as_slice()
    }

    /// How many idle reads stand in a row.
    pub(crate) fn idles(&self) -> u32
        ensures { result ≡ self.now.sitting.idles }
    {
        self.idles
    }

    /// How many reads met an unfinished line since the last line.
    pub(crate) fn mid(&self) -> u32
        ensures { result ≡ self.now.sitting.mid }
    {
        self.mid
    }

    /// The text that is no output, if one came.
    pub(crate) fn strange(&self) -> Option<&[u8]>
        ensures { option_map (λ (text : _). text.now) result ≡ self.now.sitting.strange }
    {
        if self.has_strange {
            Some(self.strange.as_slice())
        } else {
            None
        }
    }

    /// The unfinished bytes with which it ended.
    pub(crate) fn left(&self) -> &[u8]
        ensures left { result.now ≡ self.now.sitting.left }
        ensures loggable { IsLoggable self.now }
    {
        self.left.as_slice()
    }

    /// Another phase.
    pub(crate) fn turn_to(&mut self, phase: Phase)
        ensures sitting { self.new.sitting ≡ record self.old.sitting { phase = phase } }
        ensures room { self.new.room ≡ self.old.room }
    {
        self.phase = phase;
    }

    /// It hears, and has met no idle read.
    pub(crate) fn hear(&mut self)
        ensures sitting { self.new.sitting ≡ record self.old.sitting { phase = Hear; idles = 0 } }
        ensures room { self.new.room ≡ self.old.room }
    {
        self.phase = Phase::Hear;
        self.idles = 0;
    }

    /// One idle read more.
    pub(crate) fn wait(&mut self)
        requires { self.old.sitting.idles + 1 < 2 ^ 32 }
        ensures sitting { self.new.sitting ≡ record self.old.sitting { idles = self.old.sitting.idles + 1 } }
        ensures room { self.new.room ≡ self.old.room }
    {
        self.idles += 1;
    }

    /// No idle read stands in a row.
    pub(crate) fn stir(&mut self)
        ensures sitting { self.new.sitting ≡ record self.old.sitting { idles = 0 } }
        ensures room { self.new.room ≡ self.old.room }
    {
        self.idles = 0;
    }

    /// One read more that met an unfinished line.
    pub(crate) fn wait_mid(&mut self)
        requires { self.old.sitting.mid + 1 < 2 ^ 32 }
        ensures sitting { self.new.sitting ≡ record self.old.sitting { mid = self.old.sitting.mid + 1 } }
        ensures room { self.new.room ≡ self.old.room }
    {
        self.mid += 1;
    }

    /// It is done with this verdict, and these bytes are left.
    pub(crate) fn close(&mut self, verdict: Verdict, text: &[u8])
        requires { IsWithinLine MOST_LEFT_BYTES text.now }
        ensures sitting { self.new.sitting ≡ record self.old.sitting { phase = Done verdict; left = text.now } }
        ensures room { self.new.room ≡ self.old.room }
    {
        self.phase = Phase::Done(verdict);
        self.left.clear();
        let kept = self.left.extend_from_slice(text).is_ok();
        prove!(kept);
    }

    /// Logs an item, goes to a phase, and takes this count of unfinished reads.
    pub(crate) fn log(&mut self, item: Item, mid: u32, phase: Phase)
        requires room { length self.old.sitting.items < self.old.room }
        requires none { self.old.sitting.strange ≡ None }
        ensures sitting { self.new.sitting ≡ record self.old.sitting { phase = phase; items = self.old.sitting.items ++ item ∷ []; mid = mid } }
        ensures room { self.new.room ≡ self.old.room }
    {
        self.items.push_reserved(item);
        self.mid = mid;
        self.phase = phase;
    }

    /// It has failed at this place, with a line that is no output.
    pub(crate) fn fail_strange(&mut self, text: &[u8], place: u32)
        requires text { IsWithinLine MOST_TEXT_BYTES text.now }
        requires room { length self.old.sitting.items < self.old.room }
        ensures sitting { self.new.sitting ≡ record self.old.sitting { phase = Done (Fail place); mid = 0; strange = Some text.now } }
        ensures room { self.new.room ≡ self.old.room }
    {
        self.phase = Phase::Done(Verdict::Fail(place));
        self.mid = 0;
        self.has_strange = true;
        self.strange.clear();
        let kept = self.strange.extend_from_slice(text).is_ok();
        prove!(kept);
    }
}
