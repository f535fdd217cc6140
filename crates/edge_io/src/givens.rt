//! The answers that a stream in memory gives, whole or in parts.
ghost use Rattle.std.specs.Prelude.{◌≡◌, ◌+◌, ◌<◌, ◌≤◌, length};
ghost use Rattle.edge_io.specs.KeptAnswers.{given_of};
ghost use Rattle.edge_io.specs.Streams.{IsGot, answer_of};
ghost use Rattle.edge_io.specs.StreamsInMemory.{AreGivens, HasBytes, after_given, bytes_of, giving, next_answer, next_given};

use crate::content::{Given, Givens};
use crate::stream::Got;
use std::marker::Model;

/// An answer of a read without its bytes.
#[derive(Clone, Copy, Debug, Drop)]
pub(crate) enum Shape {
    /// Some bytes.
    Some,
    /// Nothing, for a tick.
    Tick,
    /// The end.
    Over,
}

/// What one read gets.
#[derive(Drop)]
pub(crate) struct Piece<'a> {
    pub(crate) shape: Shape,
    pub(crate) bytes: &'a [u8],
}

/// Answers, and how far they were given.
#[derive(Drop, Debug)]
pub(crate) struct Answers {
    givens: Givens,
    // how many answers were given whole
    given: usize,
    // how many bytes of the next answer were given
    part: usize,
}

impl Model for Answers {
    ghost use Rattle.std.specs.Prelude.{◌≡◌, ◌<◌, ◌≤◌, ◌⊎◌, length};
    ghost use Rattle.edge_io.specs.StreamsInMemory.{AreGivens, Giving, bytes_of, giving, next_given};

    ghost Value = { Giving };

    ghost view = { λ a. giving a.givens a.given a.part };

    ghost invariant = { λ a.
        AreGivens a.givens
        × (a.given ≤ length a.givens)
        × ((a.part ≡ 0) ⊎ (a.part < length (bytes_of (next_given (giving a.givens a.given a.part))))) };
}

impl Answers {
    // No answer was given yet.
    pub(crate) fn new(givens: Givens) -> Answers
        requires { AreGivens givens }
        ensures { result ≡ giving givens 0 0 }
    {
        Answers {
            givens,
            given: 0,
            part: 0,
        }
    }

    // What a buffer of this size gets.
    pub(crate) fn next(&self, size: usize) -> Piece<'_>
        requires { 0 < size }
        ensures answer { given_of (record { head = result.shape; text = result.bytes.now }) ≡ next_answer self.now size }
        ensures some { HasBytes (given_of (record { head = result.shape; text = result.bytes.now })) }
        ensures short { length result.bytes.now ≤ size }
        ensures within { self.now.part + length result.bytes.now ≤ length (bytes_of (next_given self.now)) }
    {
        match self.givens.as_slice().get(self.given) {
            Some(Given::Bytes(text)) => {
                let rest = &text.as_slice()[self.part..];
                Piece {
                    shape: Shape::Some,
                    bytes: &rest[..rest.len().min(size)],
                }
            }
            Some(Given::Idle) => Piece {
                shape: Shape::Tick,
                bytes: &[],
            },
            Some(Given::End) | None => Piece {
                shape: Shape::Over,
                bytes: &[],
            },
        }
    }

    // Counts so many bytes of the next answer as given.
    pub(crate) fn pass(&mut self, count: usize)
        requires { self.old.part + count ≤ length (bytes_of (next_given self.old)) }
        ensures { self.new ≡ after_given self.old count }
    {
        let whole = match self.givens.as_slice().get(self.given) {
            Some(Given::Bytes(text)) => text.as_slice().len(),
            Some(Given::Idle | Given::End) | None => 0,
        };
        if self.part + count < whole {
            self.part += count;
            return;
        }
        self.part = 0;
        if self.given < self.givens.as_slice().len() {
            self.given += 1;
        }
    }
}

impl<'a> Piece<'a> {
    // Copies the bytes to the front of the buffer.
    pub(crate) fn give(&self, buf: &mut [u8]) -> Got
        requires some { HasBytes (given_of (record { head = self.now.shape; text = self.now.bytes.now })) }
        requires short { length self.now.bytes.now ≤ length buf.old }
        ensures answer { answer_of result buf.new ≡ given_of (record { head = self.now.shape; text = self.now.bytes.now }) }
        ensures got { IsGot result buf.new }
        ensures length { length buf.new ≡ length buf.old }
    {
        let count = self.bytes.len();
        buf[..count].copy_from_slice(self.bytes);
        match self.shape {
            Shape::Some => Got::Bytes(count),
            Shape::Tick => Got::Idle,
            Shape::Over => Got::End,
        }
    }
}
