//! The answers that a link in memory gives, and the text of the last one.
ghost use Rattle.std.specs.Prelude.{◌≡◌, []};
ghost use Rattle.edge_io.specs.Links.{IsSaid};
ghost use Rattle.edge_io.specs.LinksInMemory.{AreReplies, after_reply, next_reply, replying, speaking};

use crate::act::Heard;
use crate::content::Replies;
use std::marker::Model;

/// Answers, how many of them were given, and whose text is said.
#[derive(Drop, Debug)]
pub(crate) struct Replier {
    replies: Replies,
    given: usize,
    // the place of the answer whose text is said; where there is none, one past the last
    said: usize,
}

impl Model for Replier {
    ghost use Rattle.std.specs.Prelude.{◌≤◌, length};
    ghost use Rattle.edge_io.specs.LinksInMemory.{AreReplies, Speaking, next_reply, replying, speaking};

    ghost Value = { Speaking };

    ghost view = { λ r. speaking (replying r.replies r.given) (next_reply (replying r.replies r.said)).text };

    ghost invariant = { λ r. AreReplies r.replies × (r.given ≤ length r.replies) };
}

impl Replier {
    // No answer was given yet.
    pub(crate) fn new(replies: Replies) -> Replier
        requires { AreReplies replies }
        ensures { result ≡ speaking (replying replies 0) [] }
    {
        let said = replies.as_slice().len();
        Replier {
            replies,
            given: 0,
            said,
        }
    }

    // The answer that comes next, with its text.
    pub(crate) fn next(&self) -> (Heard, &[u8])
        ensures heard { result.0 ≡ (next_reply self.now.held).heard }
        ensures text { result.1.now ≡ (next_reply self.now.held).text }
        ensures said { IsSaid result.0 result.1.now }
    {
        match self.replies.as_slice().get(self.given) {
            Some(reply) => (reply.heard, reply.text.as_slice()),
            None => (Heard::End, &[]),
        }
    }

    // Gives the next answer, whose text is said then.
    pub(crate) fn give(&mut self)
        ensures { self.new ≡ speaking (after_reply self.old.held) (next_reply self.old.held).text }
    {
        self.said = self.given;
        if self.given < self.replies.as_slice().len() {
            self.given += 1;
        }
    }

    // Says nothing any more.
    pub(crate) fn hush(&mut self)
        ensures { self.new ≡ speaking self.old.held [] }
    {
        self.said = self.replies.as_slice().len();
    }

    // The text that is said.
    pub(crate) fn text(&self) -> &[u8]
        ensures { result.now ≡ self.now.said }
    {
        match self.replies.as_slice().get(self.said) {
            Some(reply) => reply.text.as_slice(),
            None => &[],
        }
    }
}
