//! Links whose lines come over a stream.
ghost use Rattle.std.specs.Prelude.{◌≡◌, ◌∷◌, [], ◌++◌, IfErr, IfOk, IsTrue, OnErr, OnOk, ℕ, take};
ghost use Rattle.edge_io.specs.Links.{IsSaid, KeepsLink, LinkFails, LinkIdles, is_idle};
ghost use Rattle.edge_io.specs.Outside.{Gains};
ghost use Rattle.line_link.specs.Hearing.{GivesLine, IsHeard, IsSent, Pending, new_over, pending_over, told_over};

use crate::line_buffer::LineBuffer;
use crate::meet::meet;
use crate::put::put_line;
use edge_io::{Failed, Heard, Link, Stream};
use lts_base::Memory;
use std::alloc::Global;
use std::marker::Model;

/// No memory for a link; the stream is handed back.
#[derive(Drop, Debug)]
pub struct LinkRefused<S: Drop> {
    /// The stream.
    pub stream: S,
}

/// A link whose lines come over a stream. A line is ended by LF, and one CR before it isn't part of
/// its text. After too long a line, and after the end, the link keeps its bytes and answers the same
/// again.
#[derive(Drop)]
pub struct LineLink<S: Stream + Drop> {
    stream: S,
    lines: LineBuffer,
    is_over: bool,
}

impl<S: Stream + Drop> Model for LineLink<S> {
    ghost use Rattle.line_link.specs.Hearing.{OverStream};

    ghost Value = { OverStream S };

    ghost view = { λ k. record { stream = k.stream; bytes = k.lines.bytes; is_over = k.is_over; said = k.lines.said } };
}

impl<S: Stream + Drop> LineLink<S> {
    /// A link over this stream. It takes its buffer, and no memory afterwards.
    pub fn new(alloc: Global, stream: S) -> Result<LineLink<S>, LinkRefused<S>>
        ensures made { IfOk result (λ link. link ≡ new_over stream) }
        ensures refused { IfErr result (λ refused. refused.stream ≡ stream) }
    {
        match LineBuffer::new(alloc) {
            Ok(lines) => Ok(LineLink {
                stream,
                lines,
                is_over: false,
            }),
            Err(Memory) => Err(LinkRefused { stream }),
        }
    }

    /// The stream, which the link keeps.
    pub fn stream(&self) -> &S
        ensures { result.now ≡ self.now.stream }
    {
        &self.stream
    }

    /// The stream.
    pub fn into_stream(self) -> S
        ensures { result ≡ self.stream }
    {
        self.stream
    }
}

impl<S: Stream + Drop> Link for LineLink<S> {
    ghost State = { Pending };

    ghost state = { pending_over S.told };

    ghost gives = { GivesLine };

    ghost told = { told_over S.told };

    fn look(&mut self) -> Result<Heard, Failed>
        ensures heard { IfOk result (λ heard. IsHeard (pending_over S.told self.old) heard self.new.said (pending_over S.told self.new)) }
        ensures said { IfOk result (λ heard. IsSaid heard self.new.said) }
        ensures idle { IfOk result (λ heard. IsTrue (is_idle heard) → LinkIdles (told_over S.told self.old) (told_over S.told self.new)) }
        ensures none { OnErr result (self.new.said ≡ []) }
        ensures written { (S.told self.new.stream).written ≡ (S.told self.old.stream).written }
        ensures failed { OnErr result (LinkFails (told_over S.told self.old) (told_over S.told self.new)) }
        ensures later { KeepsLink (told_over S.told self.old) (told_over S.told self.new) }
    {
        meet(&mut self.stream, &mut self.lines, &mut self.is_over)
    }

    fn hear(&mut self) -> Result<Heard, Failed>
        ensures heard { IfOk result (λ heard. IsHeard (pending_over S.told self.old) heard self.new.said (pending_over S.told self.new)) }
        ensures said { IfOk result (λ heard. IsSaid heard self.new.said) }
        ensures idle { IfOk result (λ heard. IsTrue (is_idle heard) → LinkIdles (told_over S.told self.old) (told_over S.told self.new)) }
        ensures none { OnErr result (self.new.said ≡ []) }
        ensures written { (S.told self.new.stream).written ≡ (S.told self.old.stream).written }
        ensures failed { OnErr result (LinkFails (told_over S.told self.old) (told_over S.told self.new)) }
        ensures later { KeepsLink (told_over S.told self.old) (told_over S.told self.new) }
    {
        meet(&mut self.stream, &mut self.lines, &mut self.is_over)
    }

    fn text(&self) -> &[u8] {
        self.lines.said()
    }

    fn send(&mut self, text: &[u8]) -> Result<(), Failed>
        ensures sent { OnOk result (IsSent (pending_over S.told self.old) text.now (pending_over S.told self.new)) }
        ensures front { OnErr result ((n : ℕ) × Gains (S.told self.old.stream).written (S.told self.new.stream).written (take n (text.now ++ 10 ∷ []))) }
        ensures answers { (S.told self.new.stream).answers ≡ (S.told self.old.stream).answers }
        ensures bytes { self.new.bytes ≡ self.old.bytes }
        ensures over { self.new.is_over ≡ self.old.is_over }
        ensures none { self.new.said ≡ [] }
        ensures failed { OnErr result (LinkFails (told_over S.told self.old) (told_over S.told self.new)) }
        ensures later { KeepsLink (told_over S.told self.old) (told_over S.told self.new) }
    {
        self.lines.hush();
        put_line(&mut self.stream, text)
    }
}
