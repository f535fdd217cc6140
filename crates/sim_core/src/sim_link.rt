//! A simulated implementation as a link.
ghost use Rattle.std.specs.Prelude.{◌≡◌, ◌≤◌, ◌<◌, length, Some, None, IfOk, IfSome, IfNone, OnErr, OnOk, IsOk, IsTrue, [], ◌∷◌};
ghost use Rattle.lts_base.specs.Alphabet.{IsOver};
ghost use Rattle.lts_base.specs.Shape.{IsInputEnabled, IsConvergentOrQuiet};
ghost use Rattle.edge_io.specs.Dials.{IsNewLink};
ghost use Rattle.edge_io.specs.Links.{IsSaid, KeepsLink, LinkFails, LinkIdles, is_idle};
ghost use Rattle.edge_io.specs.Outside.{Gains};
ghost use Rattle.edge_io.specs.declared.act.Act.TheVariants.{Looked, Listened, Gave};
ghost use Rattle.sim_core.specs.Acts.{GivesSimulated, Simulated, IsAnswer, IsInputText, IsNoInput, IsShownBy};
ghost use Rattle.sim_core.specs.Gone.{IsSimulating};
ghost use Rattle.sim_core.specs.Linked.{IsSaying, begun, said_text, told_of};

use crate::finds::FoundStates;
use crate::going::Gone;
use crate::hearing::{hear_from, look_from};
use crate::taking::take_from;
use edge_io::{Failed, Heard, Link};
use lts_base::{Labels, Lts, Memory};
use rand_core::utils::NextWord;
use std::alloc::Global;
use std::marker::Model;

/// A system that a generator walks, as an implementation under test. It keeps one state, the start
/// at first; its answers are the trace of a path.
#[derive(Drop)]
pub struct SimLink<'a, R> {
    lts: &'a Lts,
    labels: &'a Labels,
    rng: R,
    state: u32,
    said: Option<u32>,
    faults: u64,
    idles: u64,
    finds: FoundStates,
}

impl<'a, R> Model for SimLink<'a, R> {
    ghost use Rattle.sim_core.specs.Linked.{Linked, IsLinked};

    ghost Value = { Linked R };

    ghost view = { λ k. record {
      simulated = record { system = k.lts.now; texts = k.labels.now.texts; place = record { at = k.state; rng = k.rng } };
      said = k.said;
      faults = k.faults;
      idles = k.idles;
    } };

    ghost invariant = { λ k. IsLinked k.labels.now k.lts.now k.state k.said k.finds.states k.finds.found };
}

impl<'a, R> SimLink<'a, R> {
    /// A simulation of the system by the generator. It takes the room that its calls need.
    pub fn new(
        alloc: Global,
        lts: &'a Lts,
        labels: &'a Labels,
        rng: R,
    ) -> Result<SimLink<'a, R>, Memory>
    where
        R: Drop,
        requires over { IsOver labels.now lts.now }
        requires enabled { IsInputEnabled lts.now }
        requires sound { IsConvergentOrQuiet lts.now }
        ensures { IfOk result (λ link. link ≡ begun lts.now labels.now rng) }
    {
        let finds = FoundStates::new(alloc, lts.states())?;
        // the call tells that the labels are an alphabet
        let _ = labels.count();
        Ok(SimLink {
            lts,
            labels,
            rng,
            state: lts.start(),
            said: None,
            faults: 0,
            idles: 0,
            finds,
        })
    }

    /// Goes where a look or a hearing went, and answers what it showed.
    fn answer(&mut self, gone: Gone) -> Heard
        requires simulating { IsSimulating self.old.simulated.system gone.state }
        requires saying { IsSaying self.old.simulated.texts gone.label }
        ensures simulated { self.new.simulated ≡ record self.old.simulated { place = record self.old.simulated.place { at = gone.state } } }
        ensures answer { IsAnswer self.new.simulated.texts gone.label result (said_text self.new.simulated.texts self.new.said) }
        ensures said { IsSaid result (said_text self.new.simulated.texts self.new.said) }
        ensures faults { self.new.faults ≡ self.old.faults }
        ensures idle { IsTrue (is_idle result) → LinkIdles (told_of self.old) (told_of self.new) }
        ensures later { self.old.idles ≤ self.new.idles }
    {
        self.state = gone.state;
        self.said = gone.label;
        match gone.label {
            Some(_) => Heard::Line,
            None => {
                self.idles = self.idles.saturating_add(1);
                Heard::Idle
            }
        }
    }

    /// Whether a hearing shows an output; its text is that of the link then.
    pub(crate) fn shows(&mut self) -> bool
    where
        R: NextWord<u32>,
        ensures shown { IsShownBy R.step self.old.simulated result (said_text self.new.simulated.texts self.new.said) self.new.simulated }
    {
        let gone = hear_from(self.lts, self.state, &mut self.rng);
        let shows = gone.label.is_some();
        self.answer(gone);
        shows
    }

    /// The number of the input with this text.
    fn input_of(&self, text: &[u8]) -> Option<u32>
        ensures some { IfSome result (IsInputText self.now.simulated.system self.now.simulated.texts text.now) }
        ensures none { IfNone result (IsNoInput self.now.simulated.system self.now.simulated.texts text.now) }
    {
        let label = self.labels.find(text)?;
        if label < self.lts.inputs() {
            Some(label)
        } else {
            None
        }
    }
}

impl<'a, R: NextWord<u32>> Link for SimLink<'a, R> {
    ghost State = { Simulated R };

    ghost state = { λ k. k.simulated };

    ghost gives = { GivesSimulated R.step };

    ghost told = { told_of };

    fn look(&mut self) -> Result<Heard, Failed>
        ensures ok { IsOk result }
        ensures gives { IfOk result (λ heard. GivesSimulated R.step self.old.simulated (Looked heard (told_of self.new).said) self.new.simulated) }
        ensures acts { IfOk result (λ heard. Gains (told_of self.old).acts (told_of self.new).acts (Looked heard (told_of self.new).said ∷ [])) }
        ensures said { IfOk result (λ heard. IsSaid heard (told_of self.new).said) }
        ensures idle { IfOk result (λ heard. IsTrue (is_idle heard) → LinkIdles (told_of self.old) (told_of self.new)) }
        ensures none { OnErr result ((told_of self.new).said ≡ []) }
        ensures kept { OnErr result ((told_of self.new).acts ≡ (told_of self.old).acts) }
        ensures failed { OnErr result (LinkFails (told_of self.old) (told_of self.new)) }
        ensures later { KeepsLink (told_of self.old) (told_of self.new) }
    {
        let gone = look_from(self.lts, self.state, &mut self.rng);
        Ok(self.answer(gone))
    }

    fn hear(&mut self) -> Result<Heard, Failed>
        ensures ok { IsOk result }
        ensures gives { IfOk result (λ heard. GivesSimulated R.step self.old.simulated (Listened heard (told_of self.new).said) self.new.simulated) }
        ensures acts { IfOk result (λ heard. Gains (told_of self.old).acts (told_of self.new).acts (Listened heard (told_of self.new).said ∷ [])) }
        ensures said { IfOk result (λ heard. IsSaid heard (told_of self.new).said) }
        ensures idle { IfOk result (λ heard. IsTrue (is_idle heard) → LinkIdles (told_of self.old) (told_of self.new)) }
        ensures none { OnErr result ((told_of self.new).said ≡ []) }
        ensures kept { OnErr result ((told_of self.new).acts ≡ (told_of self.old).acts) }
        ensures failed { OnErr result (LinkFails (told_of self.old) (told_of self.new)) }
        ensures later { KeepsLink (told_of self.old) (told_of self.new) }
    {
        let gone = hear_from(self.lts, self.state, &mut self.rng);
        Ok(self.answer(gone))
    }

    fn text(&self) -> &[u8] {
        match self.said {
            Some(label) => self.labels.text(label),
            None => &[],
        }
    }

    fn send(&mut self, text: &[u8]) -> Result<(), Failed>
        ensures gives { OnOk result (GivesSimulated R.step self.old.simulated (Gave text.now) self.new.simulated) }
        ensures acts { OnOk result (Gains (told_of self.old).acts (told_of self.new).acts (Gave text.now ∷ [])) }
        ensures none { (told_of self.new).said ≡ [] }
        ensures kept { OnErr result ((told_of self.new).acts ≡ (told_of self.old).acts) }
        ensures failed { OnErr result (LinkFails (told_of self.old) (told_of self.new)) }
        ensures later { KeepsLink (told_of self.old) (told_of self.new) }
        ensures refused { OnErr result (IsNoInput self.old.simulated.system self.old.simulated.texts text.now) }
        ensures stays { OnErr result (self.new.simulated ≡ self.old.simulated) }
    {
        self.said = None;
        let Some(input) = self.input_of(text) else {
            self.faults = self.faults.saturating_add(1);
            return Err(Failed);
        };
        self.state = take_from(self.lts, &mut self.finds, self.state, input, &mut self.rng);
        Ok(())
    }
}
