//! What the files, streams, links and dialers in memory are made of.
ghost use Rattle.std.specs.Prelude.{IsTrue};
ghost use Rattle.edge_io.specs.Links.{IsSaid};
ghost use Rattle.edge_io.specs.LinksInMemory.{AreReplies};
ghost use Rattle.edge_io.specs.StreamsInMemory.{AreGivens};

use crate::act::{Heard, MOST_HEARD_BYTES};
use lts_base::{Listed, Text};

/// A file in memory.
#[derive(Drop, Debug)]
pub struct NamedText {
    /// The name that it is read by.
    pub name: Text,
    /// All its bytes.
    pub content: Text,
}

/// Files in memory; of two equal names the first counts.
pub type Contents = Listed<NamedText>;

/// Numbers of calls, counted from 1.
pub type Numbers = Listed<u64>;

/// An answer of a read of a stream.
#[derive(Drop, Debug)]
pub enum Given {
    /// These bytes; there is one at least.
    Bytes(Text),
    /// Nothing, for a tick.
    Idle,
    /// The other side has ended.
    End,
}

/// Whether each answer of bytes has one at least.
pub fn are_given(answers: &[Given]) -> bool
    ensures { IsTrue result → AreGivens answers.now }
{
    for answer in answers {
        if let Given::Bytes(text) = answer
            && text.as_slice().is_empty()
        {
            return false;
        }
    }
    true
}

/// Answers of the reads of a stream, in their order.
pub type Givens = Listed<Given>;

/// An answer that a link in memory gives.
#[derive(Drop, Debug)]
pub struct Reply {
    /// What a look or a hearing meets.
    pub heard: Heard,
    /// The text of the answer.
    pub text: Text,
}

impl Reply {
    /// Whether the text is as that of any link's answer.
    pub fn is_said(&self) -> bool
        ensures { IsTrue result → IsSaid self.now.heard self.now.text }
    {
        let text = self.text.as_slice();
        let most = match self.heard {
            Heard::Idle => 0,
            Heard::Line | Heard::IdleMid | Heard::End => MOST_HEARD_BYTES,
            Heard::TooLong => MOST_HEARD_BYTES + 1,
        };
        text.len() <= most && !text.contains(&b'\n')
    }
}

/// Whether the texts of all answers are as those of any link.
pub fn are_said(replies: &[Reply]) -> bool
    ensures { IsTrue result → AreReplies replies.now }
{
    for reply in replies {
        if !reply.is_said() {
            return false;
        }
    }
    true
}

/// Answers of a link in memory, in their order.
pub type Replies = Listed<Reply>;

/// The links of a dialer in memory.
pub type Links<K> = Listed<K>;

/// Room for so many entries, and for so many bytes of all of them together.
#[derive(Clone, Copy, Debug, PartialEq, Eq)]
pub struct Room {
    /// The number of entries.
    pub entries: u32,
    /// The number of bytes.
    pub bytes: u64,
}
