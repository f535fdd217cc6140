//! A chooser that goes through a list.
ghost use Rattle.std.specs.Prelude.{◌≡◌, ℕ, List};
ghost use Rattle.session_core.specs.Answered.{line_at, line_next};

use lts_base::{Item, Listed};
use std::marker::Model;
use walk_core::{Choice, Choose};

/// Choices in order.
pub type Script = Listed<Choice>;

/// A chooser that gives the choices of a list in order, and observes after its end.
#[derive(Drop)]
pub struct Scripted {
    script: Script,
    at: usize,
}

impl Model for Scripted {
    ghost use Rattle.std.specs.Prelude.{◌≤◌, length};
    ghost use Rattle.session_core.specs.Answered.{Going};

    ghost Value = { Going };

    ghost view = { λ s. record { script = s.script; at = s.at } };

    ghost invariant = { λ s. s.at ≤ length s.script };
}

impl Scripted {
    /// Begins with the first line.
    pub fn new(script: Script) -> Scripted
        ensures { result ≡ record { script = script; at = 0 } }
    {
        Scripted { script, at: 0 }
    }
}

impl Choose for Scripted {
    ghost answer = { λ s _ _. (line_at s.script s.at, record { script = s.script; at = line_next s.script s.at }) };

    fn choose(&mut self, _offers: &[u32], _done: &[Item]) -> Choice {
        match self.script.as_slice().get(self.at) {
            Some(choice) => {
                let choice = *choice;
                self.at += 1;
                choice
            }
            None => Choice::Observe,
        }
    }
}
