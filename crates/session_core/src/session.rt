//! A session over a walk: each event is one turn of its table.
ghost use Rattle.std.specs.Prelude.{◌≡◌, ℕ, ◌+◌, ◌<◌, ◌≤◌, ◌↔◌, List, [], ◌∷◌, ◌++◌, length, IsTrue, Some, ◌⊎◌, IfOk, IfErr, IfSome, OnOk, OnErr, MatchOption, vec_capacity};
ghost use Rattle.std.specs.Option.{option_map};
ghost use Rattle.lts_base.specs.System.{IsItemOf};
ghost use Rattle.lts_base.specs.Alphabet.{IsOver as IsSystemOver, text_at};
ghost use Rattle.lts_base.specs.declared.item.Item.TheVariants.{Input};
ghost use Rattle.log_text.specs.declared.limits.TheConstants.{MOST_TEXT_BYTES, MOST_LEFT_BYTES, MOST_STEPS, MOST_PATIENCE};
ghost use Rattle.edge_io.specs.Links.{IsWithinLine};
ghost use Rattle.session_core.specs.Fuel.{IsSeated};
ghost use Rattle.walk_core.specs.Walked.{IsFresh};
ghost use Rattle.session_core.specs.declared.phase.Phase.TheVariants.{Ask, Look, Send, Hear, Done};
ghost use Rattle.session_core.specs.Told.{Told, Chosen, Line, Idle, IdleMid, Sent};
ghost use Rattle.session_core.specs.Table.{Offered, IsOpen, Settles};
ghost use Rattle.session_core.specs.Reading.{IsOther, IsReading};
ghost use Rattle.session_core.specs.Fitting.{told, action_of, Fits};
ghost use Rattle.session_core.specs.Logged.{log_of};
ghost use Rattle.session_core.specs.Judged.{verdict_of, IsJudged};
ghost use Rattle.log_text.specs.Logs.{IsLog};
ghost use Rattle.session_core.specs.Offers.{AreOffers};
ghost use Rattle.session_core.specs.Placed.{IsAt};
ghost use Rattle.session_core.specs.Seat.{opened, Takes, Refuses};
ghost use Rattle.session_core.specs.Sound.{IsSeen, Saw, SawIn, RefusesShown};

use crate::entries::{copied, ending_of, entries_of, text_of};
use crate::event::{Action, Event};
use crate::items::same_items;
use crate::offers::fill;
use crate::output::output_of;
use crate::phase::Phase;
use crate::place::{is_allowed, is_shown, step};
use crate::setup::Setup;
use crate::state::State;
use crate::verdict::Verdict;
use edge_io::MOST_HEARD_BYTES;
use log_text::{Ending, Entry, Log};
use lts_base::{Item, Labels, Memory, Trace};
use std::alloc::Global;
use std::marker::Model;
use std::sync::ledger::Ledger;
use walk_core::{Choice, Node, Steps, Walk, WalkError};

/// Why an event was refused. After either the session is as before.
pub type SessionError = WalkError;

/// A session: what was done, and the walk of its specification. All that it keeps, but for the
/// sets of its walk, has its room from the opening on.
#[derive(Drop)]
pub struct Session<'a, W: Walk> {
    labels: &'a Labels,
    walk: W,
    setup: Setup,
    state: State,
    here: Node,
    next: Node,
    offers: Vec<u32>,
}

impl<'a, W: Walk> Model for Session<'a, W> {
    ghost use Rattle.std.specs.Prelude.{◌≤◌, vec_capacity};
    ghost use Rattle.session_core.specs.Seat.{Seat, rules_of};
    ghost use Rattle.session_core.specs.Sound.{IsSound};

    ghost Value = { Seat };

    ghost view = { λ s. record { walked = W.walked s.walk; rules = rules_of (W.walked s.walk) s.labels.now s.setup; sitting = s.state.sitting } };

    ghost invariant = { λ s. IsSound (W.walked s.walk) s.labels.now (rules_of (W.walked s.walk) s.labels.now s.setup) s.state s.here.0 s.next.0 s.offers.items × (s.labels.now.inputs ≤ vec_capacity s.offers) };
}

impl<'a, W: Walk> Session<'a, W> {
    /// The opening of a session.
    pub fn new(
        alloc: Global,
        labels: &'a Labels,
        walk: W,
        setup: Setup,
    ) -> Result<Session<'a, W>, Memory>
    where
        W: Drop,
        requires fresh { IsFresh (W.walked walk) }
        requires over { IsSystemOver labels.now (W.walked walk).system }
        requires patience { (1 ≤ setup.patience) × (setup.patience ≤ MOST_PATIENCE) }
        requires steps { (1 ≤ setup.steps) × (setup.steps ≤ MOST_STEPS) }
        requires goal { IfSome setup.goal (λ goal. (1 ≤ length goal) × (length goal ≤ setup.steps)) }
        ensures { IfOk result (λ session. session ≡ opened (W.walked walk) labels.now setup) }
    {
        let state = State::new(alloc, setup.steps)?;
        let mut offers = Vec::with_capacity(alloc, labels.inputs() as usize)?;
        let here = walk.begin();
        fill(&mut offers, &walk, here, setup.mode, labels.inputs());
        Ok(Session {
            labels,
            walk,
            setup,
            state,
            here,
            next: here,
            offers,
        })
    }

    /// What it waits for. Its counts are below their limits as long as it isn't done.
    pub fn next(&self) -> Action
        ensures action { result ≡ action_of self.now.sitting.phase }
        ensures seated { IsSeated self.now.rules self.now.sitting }
    {
        match self.state.phase() {
            Phase::Ask => Action::Ask,
            Phase::Look(_) => Action::Look,
            Phase::Send(input) => Action::Send(input),
            Phase::Hear => Action::Hear,
            Phase::Done(verdict) => Action::Done(verdict),
        }
    }

    /// The allowed inputs in order, as long as it isn't done.
    pub fn offers(&self) -> &[u32]
        ensures { IsOpen self.now.sitting.phase → AreOffers self.now.rules self.now.sitting.items result.now }
    {
        self.offers.as_slice()
    }

    /// The items so far.
    pub fn items(&self) -> &[Item]
        ensures { result.now ≡ self.now.sitting.items }
    {
        self.state.items()
    }

    /// The line that was no output of the alphabet, if one came.
    pub fn strange(&self) -> Option<&[u8]>
        ensures { option_map (λ (text : _). text.now) result ≡ self.now.sitting.strange }
    {
        self.state.strange()
    }

    /// The text of an input; of a number that no label has, none.
    pub(crate) fn text(&self, input: u32) -> &[u8]
        ensures { result.now ≡ text_at self.now.rules.texts input }
    {
        text_of(self.labels, input)
    }

    /// What was sent and heard so far, as a log. Its ending is that of the verdict where there is
    /// one, else this. The log is one in its form, so what is printed of it is read again as it;
    /// and for whatever events the session was told, the verdict on the log is that of the session.
    pub fn log(&self, alloc: Global, otherwise: Ending) -> Result<Log, Memory>
        ensures log { IfOk result (λ log. log ≡ log_of self.now.rules self.now.sitting otherwise) }
        ensures form { IfOk result IsLog }
        ensures judged { (events : List Told) → IsReading self.now.rules events self.now.sitting → IfOk result (λ log. IsJudged self.now.rules log (verdict_of self.now.sitting.phase)) }
    {
        // these calls tell what an alphabet, a walk and the plain part of a session are
        let _ = self.labels.inputs();
        let _ = self.walk.begin();
        let _ = self.state.left();
        let log = self.told(alloc, otherwise)?;
        Ok(log)
    }

    fn told(&self, alloc: Global, otherwise: Ending) -> Result<Log, Memory>
        ensures { IfOk result (λ log. log ≡ log_of self.now.rules self.now.sitting otherwise) }
    {
        let mut entries = entries_of(alloc, self.labels, self.state.items())?;
        if let Some(strange) = self.state.strange() {
            let text = copied(alloc, strange)?;
            entries.push(Entry::Heard(text))?;
        }
        let left = copied(alloc, self.state.left())?;
        Ok(Log {
            mode: self.setup.mode,
            patience: self.setup.patience,
            steps: self.setup.steps,
            entries,
            left,
            ending: ending_of(self.state.phase(), otherwise),
        })
    }

    /// Whether the event may come now: the session waits for such an event, and its text has no LF
    /// and at most as many bytes as a line, or one more where it is too long.
    pub fn fits(&self, event: &Event<'_>) -> bool
        ensures { IsTrue result ↔ Fits self.now.sitting.phase (told event.now) }
    {
        match (self.state.phase(), event) {
            (Phase::Ask, Event::Choice(_)) => true,
            (Phase::Look(_) | Phase::Hear, Event::Idle) => true,
            (Phase::Send(_), Event::Sent) => true,
            (
                Phase::Look(_) | Phase::Hear,
                Event::Line(text) | Event::IdleMid(text) | Event::End(text),
            ) => is_within_line(text, MOST_HEARD_BYTES),
            (Phase::Look(_) | Phase::Hear, Event::TooLong(text)) => {
                is_within_line(text, MOST_HEARD_BYTES + 1)
            }
            _ => false,
        }
    }

    /// The bytes of an unfinished line with which it ended.
    pub fn left(&self) -> &[u8]
        ensures { result.now ≡ self.now.sitting.left }
    {
        self.state.left()
    }
}

impl<'a, W: Walk> Session<'a, W> {
    /// Takes one event, by the table. It makes at most one step of the walk.
    pub fn event<L: Ledger>(
        &mut self,
        event: &Event<'_>,
        steps: &mut Steps<L>,
    ) -> Result<(), SessionError>
        requires fits { Fits self.old.sitting.phase (told event.now) }
        ensures ok { OnOk result (Takes self.old (told event.now) self.new) }
        ensures err { IfErr result (Refuses self.old (told event.now)) }
        ensures same { OnErr result (self.new ≡ self.old) }
        ensures steps { steps.new ≤ steps.old + 1 }
    {
        match event {
            Event::Choice(choice) => self.choose(*choice, steps),
            Event::Line(text) => self.line(text, steps),
            Event::Idle => self.idle(steps),
            Event::IdleMid(text) => {
                self.idle_mid(text);
                Ok(())
            }
            Event::TooLong(text) => {
                self.close(Verdict::Long, text);
                Ok(())
            }
            Event::End(text) => {
                self.close(Verdict::Ended, text);
                Ok(())
            }
            Event::Sent => {
                self.sent();
                Ok(())
            }
        }
    }

    /// The input of the choice, where it is offered.
    fn offered(&self, choice: Choice) -> Option<u32>
        requires { self.now.sitting.phase ≡ Ask }
        ensures { MatchOption result (IsOther self.now.rules self.now.sitting.items choice) (λ a. (choice ≡ Choice.Input a) × (a < self.now.rules.system.inputs) × Offered self.now.rules self.now.sitting.items a) }
    {
        match choice {
            Choice::Input(a) => {
                if a < self.labels.inputs()
                    && is_allowed(&self.walk, self.here, self.setup.mode, Item::Input(a))
                {
                    Some(a)
                } else {
                    None
                }
            }
            Choice::Observe => None,
        }
    }

    /// A choice.
    fn choose<L: Ledger>(&mut self, choice: Choice, steps: &mut Steps<L>) -> Result<(), WalkError>
        requires { self.old.sitting.phase ≡ Ask }
        ensures ok { OnOk result (Takes self.old (Chosen choice) self.new) }
        ensures err { IfErr result (Refuses self.old (Chosen choice)) }
        ensures same { OnErr result (self.new ≡ self.old) }
        ensures steps { steps.new ≤ steps.old + 1 }
    {
        match self.offered(choice) {
            Some(a) => {
                let item = Item::Input(a);
                self.next = step(&mut self.walk, self.here, self.setup.mode, item, steps)?;
                self.state.turn_to(Phase::Look(a));
                Ok(())
            }
            None => {
                self.state.hear();
                Ok(())
            }
        }
    }

    /// Logs an item whose node is `next`, and goes on or has passed.
    fn log_item(&mut self, item: Item, mid: u32, next: Node)
        requires open { IsOpen self.old.sitting.phase }
        requires mid { mid ≤ self.old.sitting.mid }
        requires next { IsAt self.old.walked self.old.rules.mode next.0 (self.old.sitting.items ++ item ∷ []) }
        ensures settles { Settles self.old.rules (record self.old.sitting { mid = mid }) item self.new.sitting }
        ensures walked { self.new.walked ≡ self.old.walked }
        ensures rules { self.new.rules ≡ self.old.rules }
    {
        self.state.log(item, mid, Phase::Ask);
        self.here = next;
        if is_over(self.state.items(), self.setup.steps, &self.setup.goal) {
            self.state.turn_to(Phase::Done(Verdict::Pass));
        } else {
            let inputs = self.labels.inputs();
            fill(&mut self.offers, &self.walk, next, self.setup.mode, inputs);
        }
    }

    /// The input that was chosen went out.
    fn sent(&mut self)
        requires { Fits self.old.sitting.phase Sent }
        ensures { Takes self.old Sent self.new }
    {
        if let Phase::Send(input) = self.state.phase() {
            let mid = self.state.mid();
            let next = self.next;
            self.log_item(Item::Input(input), mid, next);
        }
    }

    /// An output or `delta` was observed; `mid` is the count of unfinished reads after it.
    fn observe<L: Ledger>(
        &mut self,
        item: Item,
        mid: u32,
        steps: &mut Steps<L>,
    ) -> Result<(), WalkError>
        requires open { IsOpen self.old.sitting.phase }
        requires item { IsItemOf self.old.rules.system item }
        requires seen { IsSeen item }
        requires mid { mid ≤ self.old.sitting.mid }
        ensures saw { OnOk result (Saw self.old.rules (record self.old.sitting { mid = mid }) item self.new.sitting) }
        ensures walk { OnOk result (SawIn self.old.rules self.old.walked self.new.walked self.old.sitting.items item) }
        ensures rules { self.new.rules ≡ self.old.rules }
        ensures err { IfErr result (RefusesShown self.old.rules self.old.walked self.old.sitting.items item) }
        ensures same { OnErr result (self.new ≡ self.old) }
        ensures steps { steps.new ≤ steps.old + 1 }
    {
        let mode = self.setup.mode;
        if is_shown(&self.walk, self.here, mode, item) {
            let next = step(&mut self.walk, self.here, mode, item, steps)?;
            self.log_item(item, mid, next);
        } else {
            let place = self.state.items().len() as u32 + 1;
            self.state.log(item, mid, Phase::Done(Verdict::Fail(place)));
        }
        Ok(())
    }

    /// A line came.
    fn line<L: Ledger>(&mut self, text: &[u8], steps: &mut Steps<L>) -> Result<(), WalkError>
        requires { Fits self.old.sitting.phase (Line text.now) }
        ensures ok { OnOk result (Takes self.old (Line text.now) self.new) }
        ensures err { IfErr result (Refuses self.old (Line text.now)) }
        ensures same { OnErr result (self.new ≡ self.old) }
        ensures steps { steps.new ≤ steps.old + 1 }
    {
        match output_of(self.labels, text) {
            Some(output) => {
                self.observe(Item::Output(output), 0, steps)?;
                Ok(())
            }
            None => {
                let place = self.state.items().len() as u32 + 1;
                self.state.fail_strange(text, place);
                Ok(())
            }
        }
    }

    /// Nothing came.
    fn idle<L: Ledger>(&mut self, steps: &mut Steps<L>) -> Result<(), WalkError>
        requires { Fits self.old.sitting.phase Idle }
        ensures ok { OnOk result (Takes self.old Idle self.new) }
        ensures err { IfErr result (Refuses self.old Idle) }
        ensures same { OnErr result (self.new ≡ self.old) }
        ensures steps { steps.new ≤ steps.old + 1 }
    {
        if let Phase::Look(input) = self.state.phase() {
            self.state.turn_to(Phase::Send(input));
            Ok(())
        } else if self.state.idles() + 1 < self.setup.patience {
            self.state.wait();
            Ok(())
        } else {
            let mid = self.state.mid();
            self.observe(Item::Delta, mid, steps)?;
            Ok(())
        }
    }

    /// Nothing came after the bytes of an unfinished line.
    fn idle_mid(&mut self, text: &[u8])
        requires { Fits self.old.sitting.phase (IdleMid text.now) }
        ensures { Takes self.old (IdleMid text.now) self.new }
    {
        if let Phase::Hear = self.state.phase() {
            self.state.stir();
        }
        self.state.wait_mid();
        if self.state.mid() >= self.setup.patience {
            self.state.close(Verdict::Stalled, text);
        }
    }

    /// It is done with this verdict, and these bytes are left.
    fn close(&mut self, verdict: Verdict, text: &[u8])
        requires { IsWithinLine MOST_LEFT_BYTES text.now }
        ensures sitting { self.new.sitting ≡ record self.old.sitting { phase = Done verdict; left = text.now } }
        ensures walked { self.new.walked ≡ self.old.walked }
        ensures rules { self.new.rules ≡ self.old.rules }
    {
        self.state.close(verdict, text);
    }
}

/// Whether the text has at most so many bytes, and no LF.
fn is_within_line(text: &[u8], most: usize) -> bool
    ensures { IsTrue result ↔ IsWithinLine most text.now }
{
    text.len() <= most && !text.contains(&10)
}

/// Whether these items are all that there are to be.
fn is_over(items: &[Item], steps: u32, goal: &Option<Trace>) -> bool
    ensures { IsTrue result ↔ ((length items.now ≡ steps) ⊎ (goal.now ≡ Some items.now)) }
{
    if items.len() == steps as usize {
        return true;
    }
    match goal {
        Some(goal) => same_items(goal.as_slice(), items),
        None => false,
    }
}
