//! A link in memory that never fails.
ghost use Rattle.std.specs.Prelude.{◌≡◌, ◌≤◌, [], nat_lt, IfOk, IsOk, Ok};
ghost use Rattle.edge_io.specs.Dials.{IsNewLink};
ghost use Rattle.edge_io.specs.Links.{IsSaid};
ghost use Rattle.edge_io.specs.LinksInMemory.{AreReplies, GivesReply, Replying, after_sure_answer, next_reply, sure_link_told};

use crate::act::Heard;
use crate::content::Replies;
use crate::failed::Failed;
use crate::link::Link;
use crate::replier::Replier;
use std::marker::Model;

/// A link whose answers are given, and which keeps nothing of what is sent; after its answers it
/// answers that the other side has ended.
#[derive(Drop, Debug)]
pub struct SureLink {
    replier: Replier,
    idles: u64,
}

impl Model for SureLink {
    ghost use Rattle.edge_io.specs.LinksInMemory.{SureLinkInMemory};

    ghost Value = { SureLinkInMemory };

    ghost view = { λ k. record { held = k.replier.held; said = k.replier.said; idles = k.idles } };
}

impl SureLink {
    /// The answers in their order.
    pub fn new(replies: Replies) -> SureLink
        requires { AreReplies replies }
        ensures made { result ≡ record { held = record { replies = replies; given = 0 }; said = []; idles = 0 } }
        ensures new { IsNewLink (⟦<SureLink as Link>⟧.told result) }
    {
        SureLink {
            replier: Replier::new(replies),
            idles: 0,
        }
    }

    // Whether there was an idle answer.
    pub(crate) fn was_idle(&self) -> bool
        ensures { result ≡ nat_lt 0 self.now.idles }
    {
        self.idles > 0
    }

    // Gives the next answer.
    fn answer(&mut self) -> Heard
        ensures heard { result ≡ (next_reply self.old.held).heard }
        ensures after { self.new ≡ after_sure_answer self.old }
        ensures said { IsSaid result self.new.said }
        ensures later { self.old.idles ≤ self.new.idles }
    {
        let (heard, _text) = self.replier.next();
        self.replier.give();
        if heard.is_idle() {
            self.idles = self.idles.saturating_add(1);
        }
        heard
    }
}

impl Link for SureLink {
    ghost State = { Replying };

    ghost state = { λ k. k.held };

    ghost gives = { GivesReply };

    ghost told = { sure_link_told };

    fn look(&mut self) -> Result<Heard, Failed>
        ensures sure { result ≡ Ok (next_reply self.old.held).heard }
        ensures after { self.new ≡ after_sure_answer self.old }
        ensures said { IfOk result (λ heard. IsSaid heard self.new.said) }
        ensures later { self.old.idles ≤ self.new.idles }
    {
        Ok(self.answer())
    }

    fn hear(&mut self) -> Result<Heard, Failed>
        ensures sure { result ≡ Ok (next_reply self.old.held).heard }
        ensures after { self.new ≡ after_sure_answer self.old }
        ensures said { IfOk result (λ heard. IsSaid heard self.new.said) }
        ensures later { self.old.idles ≤ self.new.idles }
    {
        Ok(self.answer())
    }

    fn text(&self) -> &[u8] {
        self.replier.text()
    }

    fn send(&mut self, _text: &[u8]) -> Result<(), Failed>
        ensures sure { IsOk result }
        ensures after { self.new ≡ record self.old { said = [] } }
    {
        self.replier.hush();
        Ok(())
    }
}
