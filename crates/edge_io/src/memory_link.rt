//! A link in memory, which keeps its acts.
ghost use Rattle.std.specs.Prelude.{◌≡◌, ◌≤◌, ◌||◌, [], length, Err, IfOk, is_err, if◌then◌else◌};
ghost use Rattle.edge_io.specs.Dials.{IsNewLink};
ghost use Rattle.edge_io.specs.KeptActs.{act_of};
ghost use Rattle.edge_io.specs.Links.{IsSaid};
ghost use Rattle.edge_io.specs.LinksInMemory.{AreReplies, GivesReply, Replying, new_link, next_reply, told_in_memory};
ghost use Rattle.edge_io.specs.LinksInMemory.{answer_fails, lacks_room, send_fails};
ghost use Rattle.edge_io.specs.LinksInMemory.{after_answer, after_fault, after_hear, after_look, after_send};
ghost use Rattle.edge_io.specs.declared.act.Act.TheVariants.{Looked, Listened};

use crate::act::{Act, Acts, Heard};
use crate::calls::CallCount;
use crate::content::{Numbers, Replies, Room};
use crate::failed::Failed;
use crate::kept::Kept;
use crate::link::Link;
use crate::replier::Replier;
use lts_base::{Memory, Text};
use std::alloc::Global;
use std::marker::Model;

/// An act without its text.
#[derive(Clone, Copy, Debug, Drop)]
pub(crate) enum Deed {
    /// A look that met this.
    Look(Heard),
    /// A hearing that met this.
    Hear(Heard),
    /// A text that was sent.
    Send,
}

impl Deed {
    // The act with its text.
    fn act(self, text: Text) -> Act
        ensures { result ≡ act_of (record { head = self; text = text }) }
    {
        match self {
            Deed::Look(heard) => Act::Looked(heard, text),
            Deed::Hear(heard) => Act::Listened(heard, text),
            Deed::Send => Act::Gave(text),
        }
    }
}

/// A link whose answers are given; after them it answers that the other side has ended.
#[derive(Drop, Debug)]
pub struct MemLink {
    replier: Replier,
    acts: Kept<Deed>,
    looks: CallCount,
    hears: CallCount,
    sends: CallCount,
    faults: u64,
    idles: u64,
}

impl Model for MemLink {
    ghost use Rattle.std.specs.Prelude.{map};
    ghost use Rattle.edge_io.specs.KeptActs.{act_of};
    ghost use Rattle.edge_io.specs.LinksInMemory.{LinkInMemory};

    ghost Value = { LinkInMemory };

    ghost view = { λ k. record {
      held = k.replier.held;
      acts = map act_of k.acts.entries;
      said = k.replier.said;
      left = k.acts.left;
      looks = k.looks;
      hears = k.hears;
      sends = k.sends;
      faults = k.faults;
      idles = k.idles;
    } };
}

impl MemLink {
    /// The answers in their order, and the room for the acts; a call whose act has no room is a
    /// fault. The calls whose numbers, counted from 1 for each method, stand in `fail_looks`,
    /// `fail_hears` and `fail_sends` are to fail.
    pub fn new(
        alloc: Global,
        replies: Replies,
        room: Room,
        fail_looks: Numbers,
        fail_hears: Numbers,
        fail_sends: Numbers,
    ) -> Result<MemLink, Memory>
        requires { AreReplies replies }
        ensures made { IfOk result (λ link. link ≡ new_link replies room fail_looks fail_hears fail_sends) }
        ensures new { IfOk result (λ link. IsNewLink (⟦<MemLink as Link>⟧.told link)) }
    {
        Ok(MemLink {
            replier: Replier::new(replies),
            acts: Kept::new(alloc, room)?,
            looks: CallCount::new(fail_looks),
            hears: CallCount::new(fail_hears),
            sends: CallCount::new(fail_sends),
            faults: 0,
            idles: 0,
        })
    }

    /// The acts in their order.
    pub fn acts(&self, alloc: Global) -> Result<Acts, Memory>
        ensures { IfOk result (λ acts. acts ≡ self.now.acts) }
    {
        let (marks, bytes) = self.acts.parts();
        let mut acts = Acts::new(alloc);
        let mut start = 0;
        for mark in marks {
            let end = start + mark.length;
            let text = Text::from_vec(Vec::from_slice(alloc, &bytes[start..end])?);
            acts.push(mark.head.act(text))?;
            start = end;
        }
        Ok(acts)
    }

    // Gives the next answer to a look or a hearing, unless the call is to fail.
    fn answer(&mut self, fails: bool, looks: bool) -> Result<Heard, Failed>
        ensures answer { IfOk result (λ heard. heard ≡ (next_reply self.old.held).heard) }
        ensures fails { is_err result ≡ (fails || lacks_room self.old (length (next_reply self.old.held).text)) }
        ensures after { self.new ≡ after_answer self.old fails (if looks then Looked else Listened) }
        ensures said { IfOk result (λ heard. IsSaid heard self.new.said) }
        ensures later { self.old.faults ≤ self.new.faults }
        ensures later_idles { self.old.idles ≤ self.new.idles }
    {
        let (heard, text) = self.replier.next();
        let deed = if looks {
            Deed::Look(heard)
        } else {
            Deed::Hear(heard)
        };
        if fails || !self.acts.add(deed, text) {
            return self.fault();
        }
        self.replier.give();
        if heard.is_idle() {
            self.idles = self.idles.saturating_add(1);
        }
        Ok(heard)
    }

    // Counts a fault; nothing is said any more.
    fn fault<T>(&mut self) -> Result<T, Failed>
        ensures err { result ≡ Err (record {}) }
        ensures after { self.new ≡ after_fault self.old }
        ensures later { self.old.faults ≤ self.new.faults }
    {
        self.replier.hush();
        self.faults = self.faults.saturating_add(1);
        Err(Failed)
    }
}

impl Link for MemLink {
    ghost State = { Replying };

    ghost state = { λ k. k.held };

    ghost gives = { GivesReply };

    ghost told = { told_in_memory };

    fn look(&mut self) -> Result<Heard, Failed>
        ensures answer { IfOk result (λ heard. heard ≡ (next_reply self.old.held).heard) }
        ensures fails { is_err result ≡ answer_fails self.old self.old.looks }
        ensures after { self.new ≡ after_look self.old }
        ensures said { IfOk result (λ heard. IsSaid heard self.new.said) }
        ensures later { self.old.faults ≤ self.new.faults }
        ensures later_idles { self.old.idles ≤ self.new.idles }
    {
        let fails = self.looks.fails_next();
        self.answer(fails, true)
    }

    fn hear(&mut self) -> Result<Heard, Failed>
        ensures answer { IfOk result (λ heard. heard ≡ (next_reply self.old.held).heard) }
        ensures fails { is_err result ≡ answer_fails self.old self.old.hears }
        ensures after { self.new ≡ after_hear self.old }
        ensures said { IfOk result (λ heard. IsSaid heard self.new.said) }
        ensures later { self.old.faults ≤ self.new.faults }
        ensures later_idles { self.old.idles ≤ self.new.idles }
    {
        let fails = self.hears.fails_next();
        self.answer(fails, false)
    }

    fn text(&self) -> &[u8] {
        self.replier.text()
    }

    fn send(&mut self, text: &[u8]) -> Result<(), Failed>
        ensures fails { is_err result ≡ send_fails self.old (length text.now) }
        ensures after { self.new ≡ after_send self.old text.now }
        ensures later { self.old.faults ≤ self.new.faults }
    {
        let fails = self.sends.fails_next();
        if fails || !self.acts.add(Deed::Send, text) {
            return self.fault();
        }
        self.replier.hush();
        Ok(())
    }
}
